//! Runs with a script, over files and outputs in memory.
use aseba_edge::{MemoryClock, MemoryDialer, MemoryFile, MemoryFiles, MemorySink};
use aseba_tools::run;
use aseba_words::{List, Mem, Name};
use std::alloc::Global;
use std::process::Abort;
use std::test::Fail;

/// What a call answered, and what it wrote.
#[derive(Drop)]
pub struct Outcome {
    pub number: u8,
    pub out: MemorySink,
    pub err: MemorySink,
}

/// Runs `sim` on the default project over a source and a script for so many ticks, with room for so
/// many bytes of output.
fn ran(
    alloc: Global,
    source: &str,
    script: &str,
    ticks: &str,
    room: usize,
) -> Result<Outcome, Mem> {
    let mut files = Vec::new(alloc);
    files.push(file(alloc, b"x.aseba", source.as_bytes())?)?;
    files.push(file(alloc, b"s", script.as_bytes())?)?;
    let words = ["sim", "default", "x.aseba", ticks, "--script", "s"];
    ran_words(alloc, &words, List::from_vec(files), room)
}

/// A file of a name with these bytes.
pub fn file(alloc: Global, name: &[u8], bytes: &[u8]) -> Result<MemoryFile, Mem> {
    Ok(MemoryFile {
        name: Name::new(alloc, name)?,
        bytes: List::from_slice(alloc, bytes)?,
    })
}

/// Runs words over files, with room for so many bytes of output.
pub fn ran_words(
    alloc: Global,
    line: &[&str],
    files: List<MemoryFile>,
    room: usize,
) -> Result<Outcome, Mem> {
    let mut words = Vec::new(alloc);
    for word in line {
        words.push(String::from_str(alloc, word)?)?;
    }
    let mut files = MemoryFiles::new(files, List::new(alloc));
    let mut dialer = MemoryDialer::new(alloc, List::new(alloc), List::new(alloc), List::new(alloc));
    let mut out = MemorySink::new(alloc, room, List::new(alloc))?;
    let mut err = MemorySink::new(alloc, 1000, List::new(alloc))?;
    let mut clock = MemoryClock::new(0, List::new(alloc));
    let ran = run(
        alloc,
        words.as_slice(),
        &mut files,
        &mut dialer,
        &mut out,
        &mut err,
        &mut clock,
    );
    Ok(Outcome {
        number: ran.status.number(),
        out,
        err,
    })
}

/// A source runs with each script for so many ticks, and tells these lines behind that of its words.
fn all_told(
    alloc: Global,
    rt: &impl Abort,
    source: &str,
    code: &str,
    runs: &[(&str, &str, &str)],
) -> Result<(), Fail> {
    for (script, ticks, told) in runs {
        let ran = ran(alloc, source, script, ticks, 2000)?;
        let written = format!(in alloc; "{code}\n{told}")?;
        assert_eq!(rt; ran.number, 0, "{script}");
        assert_eq!(rt; ran.out.bytes(), written.as_bytes(), "{script}");
        assert_eq!(rt; ran.err.bytes(), b"".as_slice(), "{script}");
    }
    Ok(())
}

const KILLED: &str = "var x = 1\nonevent ping\nx = x + 1\nemit pong\n";

const KILLED_CODE: &str =
    "code 0005 ffff 0005 0000 0008 1001 4022 0000 3022 1001 8002 4022 b001 0000 0000 0000";

#[test]
fn a_handler_is_killed_in_an_expression(rt: HostRuntime) -> Result<(), Fail> {
    let runs = [
        (
            "10 event ping\n12 event ping\n",
            "20",
            "10 2 event ping\n12 2 killed 3\n12 2 event ping\n16 4 emit pong\nvar x 2\nend 20 5\n",
        ),
        (
            "10 event ping\n12 event ping\n",
            "16",
            "10 2 event ping\n12 2 killed 3\n12 2 event ping\nvar x 2\nend 16 3\n",
        ),
        ("# nothing arrives\n\n", "7", "var x 1\nend 7 2\n"),
        ("", "7", "var x 1\nend 7 2\n"),
        ("7 event ping\n", "7", "var x 1\nend 7 2\n"),
    ];
    all_told(rt.alloc(), &rt, KILLED, KILLED_CODE, &runs)
}

#[test]
fn an_event_has_a_source(rt: HostRuntime) -> Result<(), Fail> {
    let runs = [(
        "5 event ping from 9\n",
        "7",
        "5 2 event ping\nvar x 1\nend 7 2\n",
    )];
    all_told(rt.alloc(), &rt, KILLED, KILLED_CODE, &runs)
}

#[test]
fn half_a_vector_is_left_behind(rt: HostRuntime) -> Result<(), Fail> {
    let runs = [
        (
            "10 event ping\n18 event ping\n",
            "19",
            "10 3 event ping\n18 4 killed 3\n18 4 event ping\nvar a 2 2\nend 19 4\n",
        ),
        (
            "10 event ping\n",
            "30",
            "10 3 event ping\nvar a 2 1\nend 30 6\n",
        ),
    ];
    all_told(
        rt.alloc(),
        &rt,
        "var a[2] = [1,2]\nonevent ping\na = [a[1], a[0]]\n",
        "code 0005 ffff 0005 0000 000e 1001 4024 1002 4025 3024 4022 3025 4023 0000 1001 5022 0002 4024 1000 5022 0002 4025 3024 4022 3025 4023 0000",
        &runs,
    )
}

#[test]
fn a_when_rises_twice(rt: HostRuntime) -> Result<(), Fail> {
    let runs = [(
        "10 event pair 0\n30 event pair 1\n50 event pair 1\n70 event pair 0\n90 event pair 1\n",
        "110",
        "10 1 event pair\n30 3 event pair\n50 6 event pair\n70 8 event pair\n90 10 event pair\nvar n 2\nend 110 13\n",
    )];
    all_told(
        rt.alloc(),
        &rt,
        "var n\nonevent pair\nwhen event.args[0] == 1 do\nn += 1\nend\n",
        "code 0005 ffff 0005 0002 0006 0000 1000 5002 0020 1001 a10a 0006 3022 1001 8002 4022 0000",
        &runs,
    )
}

#[test]
fn an_event_without_a_handler_is_ignored(rt: HostRuntime) -> Result<(), Fail> {
    let runs = [(
        "10 event pair 4 0\n11 event pong 9\n",
        "20",
        "10 2 event pair\n11 2 ignored pong\nvar x 5\nend 20 4\n",
    )];
    all_told(
        rt.alloc(),
        &rt,
        "var x = 1\nonevent pair\nx = x + event.args[0]\n",
        "code 0005 ffff 0005 0002 0008 1001 4022 0000 3022 1000 5002 0020 8002 4022 0000",
        &runs,
    )
}

#[test]
fn a_value_is_held_while_a_handler_runs(rt: HostRuntime) -> Result<(), Fail> {
    let script = "10 event ping\n11 set x 0 50\n";
    let runs = [
        (
            script,
            "14",
            "10 2 event ping\n11 2 set x\nvar x 2\nend 14 3\n",
        ),
        (
            script,
            "20",
            "10 2 event ping\n11 2 set x\nvar x 50\nend 20 4\n",
        ),
    ];
    all_told(
        rt.alloc(),
        &rt,
        "var x = 1\nonevent ping\nx = x + 1\n",
        "code 0005 ffff 0005 0000 0008 1001 4022 0000 3022 1001 8002 4022 0000",
        &runs,
    )
}

#[test]
fn a_paused_handler_drops_an_event(rt: HostRuntime) -> Result<(), Fail> {
    let runs = [(
        "6 event ping\n7 event ping\n8 set x 0 5\n",
        "20",
        "4 2 division 2\n6 2 event ping\n7 2 dropped ping\n8 2 set x\nvar x 1\nend 20 2\n",
    )];
    all_told(
        rt.alloc(),
        &rt,
        "var x = 1\nx = x / 0\nonevent ping\nx = 9\n",
        "code 0005 ffff 0005 0000 000c 1001 4022 3022 1000 8005 4022 0000 1009 4022 0000",
        &runs,
    )
}

#[test]
fn a_held_value_is_there_after_a_kill(rt: HostRuntime) -> Result<(), Fail> {
    let runs = [(
        "10 event ping\n11 set x 0 50\n12 event ping\n",
        "20",
        "10 2 event ping\n11 2 set x\n12 2 killed 3\n12 2 event ping\nvar x 51\nend 20 4\n",
    )];
    all_told(
        rt.alloc(),
        &rt,
        "var x = 1\nonevent ping\nx = x + 1\n",
        "code 0005 ffff 0005 0000 0008 1001 4022 0000 3022 1001 8002 4022 0000",
        &runs,
    )
}

#[test]
fn a_kill_in_a_subroutine_has_the_line_there(rt: HostRuntime) -> Result<(), Fail> {
    let runs = [
        (
            "5 event ping\n8 event ping\n",
            "30",
            "5 1 event ping\n8 2 killed 6\n8 2 event ping\nvar x 9\nend 30 7\n",
        ),
        (
            "5 event ping\n10 event ping\n",
            "30",
            "5 1 event ping\n10 3 killed 5\n10 3 event ping\nvar x 9\nend 30 8\n",
        ),
    ];
    all_told(
        rt.alloc(),
        &rt,
        "var x\nonevent ping\ncallsub s\nx = 9\nsub s\nx = x + 1\n",
        "code 0005 ffff 0005 0000 0006 0000 d00a 1009 4022 0000 3022 1001 8002 4022 e000",
        &runs,
    )
}

#[test]
fn a_sink_fails_in_the_third_line(rt: HostRuntime) -> Result<(), Fail> {
    let written = format!(in rt.alloc(); "{KILLED_CODE}\n10 2 event ping\n1")?;
    let ran = ran(
        rt.alloc(),
        KILLED,
        "10 event ping\n12 event ping\n",
        "20",
        written.len(),
    )?;
    assert_eq!(rt; ran.number, 7);
    assert_eq!(rt; ran.out.bytes(), written.as_bytes());
    assert_eq!(rt; ran.err.bytes(), b"aseba: write failed\n".as_slice());
    Ok(())
}

#[test]
fn scripts_that_are_not_taken(rt: HostRuntime) -> Result<(), Fail> {
    for (script, told) in [
        ("5 event nobody", "aseba: script line 1\n"),
        ("5 event ping\n4 event ping\n", "aseba: script line 2\n"),
        ("# x\n\n05 event ping\n", "aseba: script line 3\n"),
        ("5 set x 1 7\n", "aseba: script line 1\n"),
        ("5 set y 0 7\n", "aseba: script line 1\n"),
        ("5 event ping 40000\n", "aseba: script line 1\n"),
    ] {
        let ran = ran(rt.alloc(), KILLED, script, "20", 1000)?;
        assert_eq!(rt; ran.number, 6, "{script}");
        assert_eq!(rt; ran.out.bytes(), b"".as_slice(), "{script}");
        assert_eq!(rt; ran.err.bytes(), told.as_bytes(), "{script}");
    }
    Ok(())
}

#[test]
fn a_source_is_told_before_its_script(rt: HostRuntime) -> Result<(), Fail> {
    let ran = ran(rt.alloc(), "x = 1", "5 event nobody", "20", 1000)?;
    assert_eq!(rt; ran.number, 4);
    assert_eq!(rt; ran.err.bytes(), b"aseba: refused 1:1 Unknown\n".as_slice());
    let mut files = Vec::new(rt.alloc());
    files.push(file(rt.alloc(), b"x.aseba", b"x = 1")?)?;
    let words = ["sim", "default", "x.aseba", "5", "--script", "missing"];
    let ran = ran_words(rt.alloc(), &words, List::from_vec(files), 1000)?;
    assert_eq!(rt; ran.number, 2);
    assert_eq!(rt; ran.out.bytes(), b"".as_slice());
    assert_eq!(rt; ran.err.bytes(), b"aseba: no file missing\n".as_slice());
    Ok(())
}
