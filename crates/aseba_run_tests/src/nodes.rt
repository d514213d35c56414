//! `node` over links in memory: each status, and the link that is given back.
use aseba_edge::{
    LinkScript, MemoryClock, MemoryDialer, MemoryFile, MemoryFiles, MemoryIn, MemoryOut,
    MemoryPoll, MemoryPolledLink, MemorySink, PollAnswer,
};
use aseba_tools::{Ran, run};
use aseba_words::{List, Mem, Name};
use std::alloc::Global;
use std::process::Abort;
use std::test::Fail;

/// How a call ended, and what was told.
#[derive(Drop)]
struct Outcome {
    ran: Ran<MemoryIn, MemoryPoll, MemoryOut>,
    told: MemorySink,
}

/// What a link does: an answer for each text, of which `-` stands for none yet; how many bytes it
/// takes; and which of its reads, of its puts, and of the dials fail.
#[derive(Clone, Copy, Drop)]
struct Script {
    answers: &'static [&'static [u8]],
    room: usize,
    failing_reads: &'static [u64],
    failing_puts: &'static [u64],
    failing_dials: &'static [u64],
}

/// A link that gives these answers, and never fails.
fn link(answers: &'static [&'static [u8]]) -> Script {
    Script {
        answers,
        room: 1000,
        failing_reads: &[],
        failing_puts: &[],
        failing_dials: &[],
    }
}

/// LIST_NODES as a link has it, and what the default node says to it.
const LIST: &[u8] = &[2, 0, 0, 0, 0x11, 0xA0, 5, 0];

const PRESENT: &[u8] = &[2, 0, 1, 0, 0x0C, 0x90, 5, 0];

/// The link of a script, known by the mark 77.
fn linked(alloc: Global, script: &Script) -> Result<MemoryPolledLink, Mem> {
    let mut answers = List::new(alloc);
    for text in script.answers {
        let answer = match *text {
            [b'-'] => PollAnswer::Later,
            bytes => PollAnswer::Bytes(List::from_slice(alloc, bytes)?),
        };
        answers.push(answer).map_err(|_| Mem)?;
    }
    let mut plan = LinkScript::new(alloc, 77, script.room);
    plan.failing_reads = List::from_slice(alloc, script.failing_reads)?;
    plan.failing_puts = List::from_slice(alloc, script.failing_puts)?;
    MemoryPolledLink::new(alloc, plan, answers.as_slice())
}

/// The words of a line, which `|` parts.
fn words_of(alloc: Global, line: &str) -> Result<Vec<String>, Mem> {
    let mut words = Vec::new(alloc);
    for word in line.split('|') {
        words.push(String::from_str(alloc, word)?)?;
    }
    Ok(words)
}

/// Runs the words of a line over a project `p` and the link of a script.
fn ran(alloc: Global, line: &str, project: &[u8], script: &Script) -> Result<Outcome, Mem> {
    let words = words_of(alloc, line)?;
    let mut files = List::new(alloc);
    let file = MemoryFile {
        name: Name::new(alloc, b"p")?,
        bytes: List::from_slice(alloc, project)?,
    };
    files.push(file).map_err(|_| Mem)?;
    let mut files = MemoryFiles::new(files, List::from_slice(alloc, &[2])?);
    let mut polled = List::new(alloc);
    polled.push(linked(alloc, script)?).map_err(|_| Mem)?;
    let dials = List::from_slice(alloc, script.failing_dials)?;
    let mut dialer = MemoryDialer::new(alloc, List::new(alloc), polled, dials);
    let mut told = MemorySink::new(alloc, 1000, List::new(alloc))?;
    let ran = run(
        alloc,
        words.as_slice(),
        &mut files,
        &mut dialer,
        &mut MemorySink::new(alloc, 0, List::new(alloc))?,
        &mut told,
        &mut MemoryClock::new(0, List::new(alloc)),
    );
    Ok(Outcome { ran, told })
}

/// Whether the line ends with a status, tells this, and gives a link back that took these bytes.
fn has_session(
    rt: &impl Abort,
    alloc: Global,
    line: &str,
    script: &Script,
    ending: (u8, &str),
    took: &[u8],
) -> Result<(), Fail> {
    let outcome = ran(alloc, line, b"", script)?;
    assert_eq!(rt; outcome.ran.status.number(), ending.0, "{line}");
    assert_eq!(rt; outcome.told.bytes(), ending.1.as_bytes());
    assert!(rt; outcome.ran.input.is_none());
    let (Some(input), Some(output)) = (&outcome.ran.polled, &outcome.ran.output) else {
        return Err(Fail::from("no link came back"));
    };
    assert_eq!(rt; (input.mark(), output.mark()), (77, 77));
    assert_eq!(rt; output.bytes(), took);
    Ok(())
}

/// Whether the line ends with a status, tells this, and gives no link back.
fn has_no_link(
    rt: &impl Abort,
    alloc: Global,
    line: &str,
    project: &[u8],
    script: &Script,
    ending: (u8, &str),
) -> Result<(), Fail> {
    let outcome = ran(alloc, line, project, script)?;
    assert_eq!(rt; outcome.ran.status.number(), ending.0, "{line}");
    assert_eq!(rt; outcome.told.bytes(), ending.1.as_bytes());
    assert!(rt; outcome.ran.input.is_none());
    assert!(rt; outcome.ran.polled.is_none());
    assert!(rt; outcome.ran.output.is_none());
    Ok(())
}

#[test]
fn a_node_says_that_it_is_there(rt: HostRuntime) -> Result<(), Fail> {
    let line = "node|default|tcp:h:1|5";
    let script = link(&[LIST, b"-"]);
    has_session(&rt, rt.alloc(), line, &script, (0, ""), PRESENT)?;
    // All turns are done before the link has ended.
    let line = "node|default|tcp:h:1|1";
    let script = link(&[LIST, LIST]);
    has_session(&rt, rt.alloc(), line, &script, (0, ""), PRESENT)?;
    let line = "node|default|tcp:h:1|0";
    has_session(&rt, rt.alloc(), line, &script, (0, ""), b"")?;
    // The link ends in the middle of a frame.
    let line = "node|default|tcp:h:1|5";
    let script = link(&[LIST, b"\x02\0\0"]);
    has_session(&rt, rt.alloc(), line, &script, (0, ""), PRESENT)
}

#[test]
fn faults_of_the_link(rt: HostRuntime) -> Result<(), Fail> {
    let line = "node|default|tcp:h:1|5";
    let mut script = link(&[LIST, b"-"]);
    script.failing_reads = &[3];
    let ending = (3, "aseba: read failed\n");
    has_session(&rt, rt.alloc(), line, &script, ending, PRESENT)?;
    let mut script = link(&[LIST, b"-"]);
    script.room = 4;
    let ending = (7, "aseba: write failed\n");
    has_session(&rt, rt.alloc(), line, &script, ending, &[2, 0, 1, 0])?;
    let mut script = link(&[LIST, LIST]);
    script.failing_puts = &[2];
    has_session(&rt, rt.alloc(), line, &script, ending, PRESENT)
}

#[test]
fn a_bad_length(rt: HostRuntime) -> Result<(), Fail> {
    let line = "node|default|tcp:h:1|5";
    let script = link(&[LIST, b"\x01", b"-", b"\x04"]);
    let ending = (10, "aseba: bad frame at 8\n");
    has_session(&rt, rt.alloc(), line, &script, ending, PRESENT)
}

#[test]
fn no_connection(rt: HostRuntime) -> Result<(), Fail> {
    let line = "node|default|tcp:h:1|5";
    let mut script = link(&[LIST]);
    script.failing_dials = &[1];
    let ending = (12, "aseba: no connection\n");
    has_no_link(&rt, rt.alloc(), line, b"", &script, ending)
}

#[test]
fn a_project_comes_before_the_dial(rt: HostRuntime) -> Result<(), Fail> {
    let mut script = link(&[LIST]);
    script.failing_dials = &[1];
    for (word, project, ending) in [
        ("q", b"".as_slice(), (2, "aseba: no file q\n")),
        ("p", b"", (5, "aseba: project line 1\n")),
        ("p", b"node 3\n", (5, "aseba: project line 1\n")),
        (
            "p",
            b"node n\ncode 4\nvars 1\nstack 1\nid 1\nnative math.fill -1 dest 1 value ; fill\n",
            (5, "aseba: project line 6\n"),
        ),
    ] {
        let line = format!(in rt.alloc(); "node|{word}|tcp:h:1|5")?;
        has_no_link(&rt, rt.alloc(), &line, project, &script, ending)?;
    }
    Ok(())
}

#[test]
fn a_project_that_is_too_long(rt: HostRuntime) -> Result<(), Fail> {
    let mut long = Vec::new(rt.alloc());
    long.resize(1_048_577, b'#')?;
    let script = link(&[LIST]);
    let ending = (9, "aseba: too big p\n");
    let line = "node|p|tcp:h:1|5";
    has_no_link(&rt, rt.alloc(), line, long.as_slice(), &script, ending)
}

#[test]
fn a_project_that_is_not_read(rt: HostRuntime) -> Result<(), Fail> {
    let mut files = List::new(rt.alloc());
    let file = MemoryFile {
        name: Name::new(rt.alloc(), b"p")?,
        bytes: List::new(rt.alloc()),
    };
    files.push(file).map_err(|_| Mem)?;
    let mut files = MemoryFiles::new(files, List::from_slice(rt.alloc(), &[1])?);
    let polled = List::new(rt.alloc());
    let links = List::new(rt.alloc());
    let mut dialer = MemoryDialer::new(rt.alloc(), links, polled, List::new(rt.alloc()));
    let ran = run(
        rt.alloc(),
        words_of(rt.alloc(), "node|p|tcp:h:1|5")?.as_slice(),
        &mut files,
        &mut dialer,
        &mut MemorySink::new(rt.alloc(), 0, List::new(rt.alloc()))?,
        &mut MemorySink::new(rt.alloc(), 0, List::new(rt.alloc()))?,
        &mut MemoryClock::new(0, List::new(rt.alloc())),
    );
    assert_eq!(rt; ran.status.number(), 3);
    assert!(rt; ran.polled.is_none());
    Ok(())
}

#[test]
fn a_project_from_a_file(rt: HostRuntime) -> Result<(), Fail> {
    let project = b"node n\ncode 4\nvars 1\nstack 1\nid 258\n";
    let script = link(&[LIST]);
    let outcome = ran(rt.alloc(), "node|p|tcp:h:1|5", project, &script)?;
    assert_eq!(rt; outcome.ran.status.number(), 0);
    let Some(output) = &outcome.ran.output else {
        return Err(Fail::from("no link came back"));
    };
    assert_eq!(rt; output.bytes(), [2, 0, 2, 1, 0x0C, 0x90, 5, 0].as_slice());
    Ok(())
}
