use crate::projects::texts::again;
use aseba_describe::{ProjectError, read_project};
use std::alloc::Global;
use std::test::Fail;

/// The least node, then that many lines, each with its number behind a front and before a back.
fn lines(alloc: Global, front: &str, back: &str, count: u32) -> Result<String, Fail> {
    let mut text = String::from_str(alloc, "node r\ncode 4\nvars 4096\nstack 1\nid 1\n")?;
    for number in 0..count {
        text.push_str(front)?;
        text.push_str(format!(in alloc; "{number}")?.as_str())?;
        text.push_str(back)?;
        text.push_str("\n")?;
    }
    Ok(text)
}

#[test]
fn counts_of_lines(rt: HostRuntime) -> Result<(), Fail> {
    for (front, back, most) in [
        ("variable v", " 1", 256),
        ("local l", " ", 64),
        ("native n", " ; ", 64),
        ("event e", " 0", 256),
        ("const c", " 1", 512),
    ] {
        let text = lines(rt.alloc(), front, back, most)?;
        let written = again(rt.alloc(), text.as_bytes())?;
        assert_eq!(rt; written.as_slice(), text.as_bytes());
        let text = lines(rt.alloc(), front, back, most + 1)?;
        match read_project(rt.alloc(), text.as_bytes()) {
            Ok(_) => panic!(rt; "one too many"),
            Err(error) => assert_eq!(rt;
                error,
                ProjectError::Line {
                    n: u64::from(most) + 6
                }
            ),
        }
    }
    Ok(())
}

/// A line with one field of that many letters.
fn long(alloc: Global, front: &str, letters: u32, back: &str) -> Result<String, Fail> {
    let mut text = String::from_str(alloc, "node r\ncode 4\nvars 9\nstack 1\nid 1\n")?;
    text.push_str(front)?;
    for _ in 0..letters {
        text.push_str("a")?;
    }
    text.push_str(back)?;
    Ok(text)
}

#[test]
fn lengths(rt: HostRuntime) -> Result<(), Fail> {
    for (front, back, most) in [
        ("variable ", " 1", 255),
        ("local l ", "", 255),
        ("const ", " 1", 255),
        ("native n 1 ", " ; ", 255),
    ] {
        let text = long(rt.alloc(), front, most, back)?;
        assert!(rt;
            read_project(rt.alloc(), text.as_bytes()).is_ok(),
            "{front}"
        );
        let text = long(rt.alloc(), front, most + 1, back)?;
        match read_project(rt.alloc(), text.as_bytes()) {
            Ok(_) => panic!(rt; "too long"),
            Err(error) => assert_eq!(rt; error, ProjectError::Line { n: 6 }),
        }
    }
    Ok(())
}

#[test]
fn parameters(rt: HostRuntime) -> Result<(), Fail> {
    let sixteen =
        b"node r\ncode 4\nvars 9\nstack 1\nid 1\nnative n 1 a 1 a 1 a 1 a 1 a 1 a 1 a 1 a 1 a 1 a 1 a 1 a 1 a 1 a 1 a 1 a ; t\n";
    let written = again(rt.alloc(), sixteen.as_slice())?;
    assert_eq!(rt; written.as_slice(), sixteen.as_slice());
    let seventeen =
        b"node r\ncode 4\nvars 9\nstack 1\nid 1\nnative n 1 a 1 a 1 a 1 a 1 a 1 a 1 a 1 a 1 a 1 a 1 a 1 a 1 a 1 a 1 a 1 a 1 a ; t\n";
    match read_project(rt.alloc(), seventeen.as_slice()) {
        Ok(_) => panic!(rt; "one too many"),
        Err(error) => assert_eq!(rt; error, ProjectError::Line { n: 6 }),
    }
    Ok(())
}

/// A native with a name of 255 bytes and a parameter's name of so many, whose message has 262 more.
fn wide(alloc: Global, letters: u32) -> Result<String, Fail> {
    let mut front = String::from_str(alloc, "native ")?;
    for _ in 0..255 {
        front.push_str("n")?;
    }
    front.push_str(" 1 ")?;
    long(alloc, front.as_str(), letters, " ; ")
}

#[test]
fn messages(rt: HostRuntime) -> Result<(), Fail> {
    let text = wide(rt.alloc(), 250)?;
    let written = again(rt.alloc(), text.as_bytes())?;
    assert_eq!(rt; written.len(), text.len() + 1);
    let text = wide(rt.alloc(), 251)?;
    match read_project(rt.alloc(), text.as_bytes()) {
        Ok(_) => panic!(rt; "too wide"),
        Err(error) => assert_eq!(rt; error, ProjectError::Line { n: 6 }),
    }
    Ok(())
}
