//! Which words are a command line, over an empty source and a file of frames in memory.
use aseba_edge::{MemoryClock, MemoryDialer, MemoryFile, MemoryFiles, MemorySink};
use aseba_tools::run;
use aseba_words::{List, Mem, Name};
use std::alloc::Global;
use std::process::Abort;
use std::test::Fail;

/// The frame of an event, in a file `f`.
const FRAME: &[u8] = &[4, 0, 1, 0, 1, 0, 3, 0, 255, 255];

/// How a call ended: its status, and what it wrote to each output.
#[derive(Drop)]
struct Ended {
    number: u8,
    out: MemorySink,
    err: MemorySink,
}

/// Runs the words of a line, which `|` parts; an empty line has none.
fn ran(alloc: Global, line: &str) -> Result<Ended, Mem> {
    let mut words = Vec::new(alloc);
    if !line.is_empty() {
        for word in line.split('|') {
            words.push(String::from_str(alloc, word)?)?;
        }
    }
    let mut files = Vec::new(alloc);
    files.push(file(alloc, b"x", b"")?)?;
    files.push(file(alloc, b"f", FRAME)?)?;
    files.push(file(alloc, b"--raw", FRAME)?)?;
    let mut files = MemoryFiles::new(List::from_vec(files), List::new(alloc));
    let mut out = MemorySink::new(alloc, 1000, List::new(alloc))?;
    let mut err = MemorySink::new(alloc, 1000, List::new(alloc))?;
    let answer = run(
        alloc,
        words.as_slice(),
        &mut files,
        &mut MemoryDialer::new(alloc, List::new(alloc), List::new(alloc), List::new(alloc)),
        &mut out,
        &mut err,
        &mut MemoryClock::new(0, List::new(alloc)),
    );
    Ok(Ended {
        number: answer.status.number(),
        out,
        err,
    })
}

fn file(alloc: Global, name: &[u8], bytes: &[u8]) -> Result<MemoryFile, Mem> {
    Ok(MemoryFile {
        name: Name::new(alloc, name)?,
        bytes: List::from_slice(alloc, bytes)?,
    })
}

/// Each line works on the empty source to its end, and writes this.
fn all_run(alloc: Global, rt: &impl Abort, lines: &[&str], written: &[u8]) -> Result<(), Fail> {
    for line in lines {
        let ended = ran(alloc, line)?;
        assert_eq!(rt; ended.number, 0, "{line}");
        assert_eq!(rt; ended.out.bytes(), written, "{line}");
        assert_eq!(rt; ended.err.bytes(), b"".as_slice(), "{line}");
    }
    Ok(())
}

#[test]
fn words_of_sim(rt: HostRuntime) -> Result<(), Fail> {
    let alloc = rt.alloc();
    let lines: &[&str] = &["sim|default|x|0"];
    all_run(alloc, &rt, lines, b"code 0003 ffff 0003 0000\nend 0 0\n")?;
    let lines: &[&str] = &["sim|default|x|7", "sim|default|x|007", "sim|default|x|+7"];
    all_run(alloc, &rt, lines, b"code 0003 ffff 0003 0000\nend 7 1\n")?;
    let lines: &[&str] = &[
        "sim|--|default|x|5",
        "sim|default|x|--|5",
        "sim|default|x|5|--",
    ];
    all_run(alloc, &rt, lines, b"code 0003 ffff 0003 0000\nend 5 1\n")?;
    let lines: &[&str] = &[
        "sim|default|x|5|--script|x",
        "sim|--script=x|default|x|5",
        "sim|--script|x|--|default|x|5",
    ];
    all_run(alloc, &rt, lines, b"code 0003 ffff 0003 0000\nend 5 1\n")?;
    Ok(())
}

#[test]
fn words_of_compile(rt: HostRuntime) -> Result<(), Fail> {
    let lines: &[&str] = &[
        "compile|default|x",
        "compile|--|default|x",
        "compile|default|x|--",
    ];
    all_run(rt.alloc(), &rt, lines, b"code 0003 ffff 0003 0000\n")
}

#[test]
fn words_of_dump(rt: HostRuntime) -> Result<(), Fail> {
    for line in [
        "dump|f|--raw",
        "dump|--raw|f",
        "dump|--raw|--|f",
        "dump|--raw|--|--raw",
    ] {
        let ended = ran(rt.alloc(), line)?;
        assert_eq!(rt; ended.number, 0, "{line}");
        assert_eq!(rt;
            ended.out.bytes(),
            b"0 1 raw 0001 0300ffff\n".as_slice(),
            "{line}"
        );
        assert_eq!(rt; ended.err.bytes(), b"".as_slice(), "{line}");
    }
    Ok(())
}

#[test]
fn words_of_node(rt: HostRuntime) -> Result<(), Fail> {
    // No link is there to be had, so what is taken ends without a connection.
    for line in [
        "node|default|tcp:h:1|0",
        "node|default|tcp:localhost:33333|5",
        "node|default|tcp:127.0.0.1:65535|1000000000",
        "node|default|tcp:h:1|007",
        "node|--|default|tcp:h:1|+5",
        "node|default|tcp:tcp:1|5",
        "node|default|tcp: :1|5",
    ] {
        let ended = ran(rt.alloc(), line)?;
        assert_eq!(rt; ended.number, 12, "{line}");
        assert_eq!(rt; ended.out.bytes(), b"".as_slice(), "{line}");
        assert_eq!(rt;
            ended.err.bytes(),
            b"aseba: no connection\n".as_slice(),
            "{line}"
        );
    }
    Ok(())
}

/// Each line is no command line, and is told so, with nothing else.
fn all_refused(alloc: Global, rt: &impl Abort, lines: &[&str]) -> Result<(), Fail> {
    for line in lines {
        let ended = ran(alloc, line)?;
        assert_eq!(rt; ended.number, 1, "{line}");
        assert_eq!(rt; ended.out.bytes(), b"".as_slice(), "{line}");
        assert_eq!(rt;
            ended.err.bytes(),
            b"aseba: bad command line\n".as_slice(),
            "{line}"
        );
    }
    Ok(())
}

#[test]
fn words_that_name_no_tool(rt: HostRuntime) -> Result<(), Fail> {
    let lines: &[&str] = &[
        "",
        "|",
        "--",
        "--|sim|default|x|5",
        "Sim|default|x|5",
        "simulate|default|x|5",
        "sim ",
        "help",
        "--help",
        "-h",
        "--version",
        "-V",
    ];
    all_refused(rt.alloc(), &rt, lines)
}

#[test]
fn words_that_no_tool_takes(rt: HostRuntime) -> Result<(), Fail> {
    let lines: &[&str] = &[
        "sim",
        "sim|default",
        "sim|default|x",
        "sim|default|x|5|5",
        "sim|default|x|5|--script",
        "sim|default|x|5|--script|f|--script|f",
        "sim|default|x|5|--script=f|--script=f",
        "sim|default|x|5|--raw",
        "sim|default|x|5|--verbose",
        "sim|default|x|5|-5",
        "sim|-v|default|x|5",
        "sim|--help",
        "sim|-h",
        "sim|default|x|5|--version",
        "sim|default|x|5|-V",
        "dump",
        "dump|f|f|--raw",
        "dump|f|--raw|--raw",
        "dump|f|--raw=true",
        "dump|f|--ra",
        "dump|f|-r",
        "dump|f|--|--raw",
        "compile",
        "compile|default",
        "compile|default|x|5",
        "compile|default|x|--script|f",
    ];
    all_refused(rt.alloc(), &rt, lines)
}

#[test]
fn words_that_node_does_not_take(rt: HostRuntime) -> Result<(), Fail> {
    let lines: &[&str] = &[
        "node",
        "node|default",
        "node|default|tcp:h:1",
        "node|default|tcp:h:1|5|5",
        "node|default|tcp:h:1|-5",
        "node|default|tcp:h:1|1000000001",
        "node|default|tcp:h:1|5|--raw",
        "node|default|x|5",
        "node|default||5",
        "node|default|tcp:|5",
        "node|default|tcp:h|5",
        "node|default|tcp::1|5",
        "node|default|tcp:h:|5",
        "node|default|tcp:h:0|5",
        "node|default|tcp:h:01|5",
        "node|default|tcp:h:+1|5",
        "node|default|tcp:h:65536|5",
        "node|default|tcp:h:99999999999999999999|5",
        "node|default|tcp:h:1:1|5",
        "node|default|tcp:h:1 |5",
        "node|default|tcp:h;1|5",
        "node|default|TCP:h:1|5",
        "node|default|udp:h:1|5",
    ];
    all_refused(rt.alloc(), &rt, lines)
}

#[test]
fn words_that_are_no_number_of_ticks(rt: HostRuntime) -> Result<(), Fail> {
    let lines: &[&str] = &[
        "sim|default|x|",
        "sim|default|x|-5",
        "sim|default|x|--|-5",
        "sim|default|x|++5",
        "sim|default|x|5 ",
        "sim|default|x|0x5",
        "sim|default|x|1.0",
        "sim|default|x|100000001",
        "sim|default|x|99999999999999999999",
    ];
    all_refused(rt.alloc(), &rt, lines)
}

#[test]
fn words_of_what_is_not_there_yet(rt: HostRuntime) -> Result<(), Fail> {
    let lines: &[&str] = &[
        "dump|f",
        "dump|f|--raw|--project|default",
        "dump|tcp:localhost:33333|--raw",
        "rec|tcp:localhost:33333",
        "play|f|tcp:localhost:33333",
        "migrate|f",
        "massloader|default|x|tcp:localhost:33333|--nodes|2",
        "make|7|5",
    ];
    all_refused(rt.alloc(), &rt, lines)
}
