use aseba_describe::{ProjectError, read_project};
use std::alloc::Global;
use std::process::Abort;
use std::test::Fail;

/// Expects a text to have its first bad line there.
fn expect_bad(rt: &impl Abort, alloc: Global, text: &[u8], line: u64) {
    match read_project(alloc, text) {
        Ok(_) => panic!(rt; "line {line} was taken"),
        Err(error) => assert_eq!(rt; error, ProjectError::Line { n: line }),
    }
}

#[test]
fn needed_lines(rt: HostRuntime) {
    for (text, line) in [
        (b"".as_slice(), 1),
        (b"# nothing\n\n".as_slice(), 3),
        (b"node 3\n".as_slice(), 1),
        (b"node end\n".as_slice(), 1),
        (b"node  r\n".as_slice(), 1),
        (b"node r \n".as_slice(), 1),
        (b"node r\r".as_slice(), 1),
        (b"node r\nvars 1\n".as_slice(), 2),
        (b"node r\nnode r\n".as_slice(), 2),
        (b"node r\ncode 04\n".as_slice(), 2),
        (b"node r\ncode +4\n".as_slice(), 2),
        (b"node r\ncode 3\n".as_slice(), 2),
        (b"node r\ncode 32768\n".as_slice(), 2),
        (b"node r\ncode 4\nvars 0\n".as_slice(), 3),
        (b"node r\ncode 4\nvars 4097\n".as_slice(), 3),
        (b"node r\ncode 4\nvars 1\nstack 0\n".as_slice(), 4),
        (b"node r\ncode 4\nvars 1\nstack 1025\n".as_slice(), 4),
        (b"node r\ncode 4\nvars 1\nstack 1\nid 0\n".as_slice(), 5),
        (b"node r\ncode 4\nvars 1\nstack 1\nid 65536\n".as_slice(), 5),
        (b"node r\ncode 4\nvars 1\nstack 1\n".as_slice(), 5),
        (
            b"node r\n\ncode 4\n#\nvars 1\nstack 1\nevent e 0\n".as_slice(),
            7,
        ),
    ] {
        expect_bad(&rt, rt.alloc(), text, line);
    }
}

/// The lines before those of the next test.
const NEEDED: &[u8] = b"node r\ncode 4\nvars 9\nstack 1\nid 1\n";

#[test]
fn lines_behind_the_needed_ones(rt: HostRuntime) -> Result<(), Fail> {
    for (lines, line) in [
        (b"id 1\n".as_slice(), 6),
        (b"variable a 0\n".as_slice(), 6),
        (b"variable a 4097\n".as_slice(), 6),
        (b"variable a -1\n".as_slice(), 6),
        (b"variable a  1\n".as_slice(), 6),
        (b"variable a 8\nvariable b 2\n".as_slice(), 7),
        (b"variable a 1\nvariable a 1\n".as_slice(), 7),
        (b"variable a 1\nconst a 1\n".as_slice(), 7),
        (b"local a\n".as_slice(), 6),
        (b"local a \x7f\n".as_slice(), 6),
        (b"local a \x1f\n".as_slice(), 6),
        (b"local a \nvariable b 1\n".as_slice(), 7),
        (b"local a \nevent a 1\n".as_slice(), 7),
        (b"native a\n".as_slice(), 6),
        (b"native a ;\n".as_slice(), 6),
        (b"native a 1 b\n".as_slice(), 6),
        (b"native a 0 b ; \n".as_slice(), 6),
        (b"native a 32768 b ; \n".as_slice(), 6),
        (b"native a -32769 b ; \n".as_slice(), 6),
        (b"native a ; \nnative a ; \n".as_slice(), 7),
        (b"event a 257\n".as_slice(), 6),
        (b"event a 1\nlocal b \n".as_slice(), 7),
        (b"const a -0\n".as_slice(), 6),
        (b"const a 00\n".as_slice(), 6),
        (b"const a 32768\n".as_slice(), 6),
        (b"const a -32769\n".as_slice(), 6),
        (b"const a 1\nevent b 1\n".as_slice(), 7),
    ] {
        let mut text = Vec::from_slice(rt.alloc(), NEEDED)?;
        text.extend_from_slice(lines)?;
        expect_bad(&rt, rt.alloc(), text.as_slice(), line);
    }
    Ok(())
}
