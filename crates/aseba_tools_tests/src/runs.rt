//! The tools over files and outputs in memory.
use aseba_edge::{MemoryClock, MemoryDialer, MemoryFile, MemoryFiles, MemorySink};
use aseba_tools::run;
use aseba_words::{List, Mem, Name};
use std::alloc::Global;
use std::process::Abort;
use std::test::Fail;

/// What a call answered, and what it wrote.
#[derive(Drop)]
struct Outcome {
    number: u8,
    out: MemorySink,
    err: MemorySink,
}

/// Runs the words of a line over one file in memory, with a read that is to fail or none, and room
/// for so many bytes of output.
fn ran_with(
    alloc: Global,
    line: &str,
    text: &[u8],
    failing: u64,
    room: usize,
) -> Result<Outcome, Mem> {
    let mut files = Vec::new(alloc);
    files.push(file(alloc, b"x.aseba", text)?)?;
    ran_over(alloc, line, List::from_vec(files), failing, room, 1000)
}

fn file(alloc: Global, name: &[u8], bytes: &[u8]) -> Result<MemoryFile, Mem> {
    Ok(MemoryFile {
        name: Name::new(alloc, name)?,
        bytes: List::from_slice(alloc, bytes)?,
    })
}

/// Runs the words of a line over a source and a project `p`.
fn ran_for(alloc: Global, line: &str, project: &[u8], text: &[u8]) -> Result<Outcome, Mem> {
    let mut files = Vec::new(alloc);
    files.push(file(alloc, b"x.aseba", text)?)?;
    files.push(file(alloc, b"p", project)?)?;
    ran_over(alloc, line, List::from_vec(files), 0, 1000, 1000)
}

/// The words of a line, which `|` parts. An empty line has none.
fn words_of(alloc: Global, line: &str) -> Result<Vec<String>, Mem> {
    let mut words = Vec::new(alloc);
    if line.is_empty() {
        return Ok(words);
    }
    for word in line.split('|') {
        words.push(String::from_str(alloc, word)?)?;
    }
    Ok(words)
}

/// Runs the words of a line over files, with room for so many bytes of output and so many bytes of
/// messages.
fn ran_over(
    alloc: Global,
    line: &str,
    files: List<MemoryFile>,
    failing: u64,
    room: usize,
    err_room: usize,
) -> Result<Outcome, Mem> {
    let words = words_of(alloc, line)?;
    let failing = List::from_slice(alloc, &[failing])?;
    let mut files = MemoryFiles::new(files, failing);
    let mut dialer = MemoryDialer::new(alloc, List::new(alloc), List::new(alloc), List::new(alloc));
    let mut out = MemorySink::new(alloc, room, List::new(alloc))?;
    let mut err = MemorySink::new(alloc, err_room, List::new(alloc))?;
    let mut clock = MemoryClock::new(0, List::new(alloc));
    let ran = run(
        alloc,
        words.as_slice(),
        &mut files,
        &mut dialer,
        &mut out,
        &mut err,
        &mut clock,
    );
    Ok(Outcome {
        number: ran.status.number(),
        out,
        err,
    })
}

#[test]
fn sources_run(rt: HostRuntime) -> Result<(), Fail> {
    for (text, line, written) in [
        (
            "var x = 1\nx = x + 1\n",
            "sim|default|x.aseba|10",
            "code 0003 ffff 0003 1001 4022 3022 1001 8002 4022 0000\nvar x 2\nend 10 3\n",
        ),
        (
            "",
            "sim|default|x.aseba|5",
            "code 0003 ffff 0003 0000\nend 5 1\n",
        ),
        (
            "var x = 32767\nx = x + 1",
            "sim|default|x.aseba|10",
            "code 0003 ffff 0003 2000 7fff 4022 3022 1001 8002 4022 0000\nvar x -32768\nend 10 3\n",
        ),
        (
            "var a var b = 2048 b = b - a - 1 _id = b",
            "sim|default|x.aseba|100",
            "code 0003 ffff 0003 2000 0800 4023 3023 3022 8003 1001 8003 4023 3023 4000 0000\nvar a 0\nvar b 2047\nend 100 4\n",
        ),
        (
            "var a[[3]]",
            "sim|default|x.aseba|5",
            "code 0003 ffff 0003 0000\nvar a 0 0 0\nend 5 1\n",
        ),
        (
            "emit ping",
            "sim|default|x.aseba|5",
            "code 0003 ffff 0003 b000 0000 0000 0000\n0 1 emit ping\nend 5 2\n",
        ),
        (
            "# a comment\nvar a[2] var x = 0x8000",
            "sim|default|x.aseba|9",
            "code 0003 ffff 0003 2000 8000 4024 0000\nvar a 0 0\nvar x -32768\nend 9 2\n",
        ),
        (
            "var x = 1\nx = x + 1",
            "sim|default|x.aseba|5",
            "code 0003 ffff 0003 1001 4022 3022 1001 8002 4022 0000\nvar x 1\nend 5 1\n",
        ),
    ] {
        let ran = ran_with(rt.alloc(), line, text.as_bytes(), 0, 1000)?;
        assert_eq!(rt; ran.number, 0, "{text}");
        assert_eq!(rt; ran.out.bytes(), written.as_bytes(), "{text}");
        assert_eq!(rt; ran.err.bytes(), b"".as_slice());
    }
    Ok(())
}

/// Each text is refused, and tells so.
fn all_refused(alloc: Global, rt: &impl Abort, texts: &[(&str, &str)]) -> Result<(), Fail> {
    for (text, told) in texts {
        let ran = ran_with(alloc, "sim|default|x.aseba|9", text.as_bytes(), 0, 1000)?;
        assert_eq!(rt; ran.number, 4, "{text}");
        assert_eq!(rt; ran.out.bytes(), b"".as_slice());
        let told = format!(in alloc; "aseba: refused {told}\n")?;
        assert_eq!(rt; ran.err.bytes(), told.as_bytes());
    }
    Ok(())
}

#[test]
fn texts_that_are_no_program(rt: HostRuntime) -> Result<(), Fail> {
    let texts = [
        ("var end", "1:5 Syntax"),
        ("var x x == 1", "1:9 Syntax"),
        ("var x = 1 +", "1:12 Syntax"),
        ("var x = 1\nx = 2 var y", "2:7 Syntax"),
        ("var x = 12ab", "1:9 BadNumber"),
        ("var x\n\u{e9}", "2:1 BadByte"),
        ("var x #* open", "1:7 OpenComment"),
        ("x = 40000", "1:5 BadNumber"),
        ("var x = ", "1:9 Syntax"),
        ("emit ping 1", "1:11 Syntax"),
        ("emit pair", "1:10 Syntax"),
        ("onevent end", "1:9 Syntax"),
        ("x = (1", "1:7 Syntax"),
        ("var x\nx = 1\nvar y", "3:1 Syntax"),
    ];
    all_refused(rt.alloc(), &rt, &texts)
}

#[test]
fn a_text_that_is_nested_too_deep(rt: HostRuntime) -> Result<(), Fail> {
    let opened = repeated(rt.alloc(), "var x\nx = ", "(", 65)?;
    let closed = repeated(rt.alloc(), "1", ")", 65)?;
    let text = format!(in rt.alloc(); "{opened}{closed}\n")?;
    let texts = [(text.as_str(), "2:69 TooDeep")];
    all_refused(rt.alloc(), &rt, &texts)
}

/// Each text runs for so many ticks, and tells this.
fn all_run(alloc: Global, rt: &impl Abort, runs: &[(&str, &str, &str)]) -> Result<(), Fail> {
    for (text, ticks, written) in runs {
        let line = format!(in alloc; "sim|default|x.aseba|{ticks}")?;
        let ran = ran_with(alloc, &line, text.as_bytes(), 0, 1000)?;
        assert_eq!(rt; ran.number, 0, "{text}");
        assert_eq!(rt; ran.out.bytes(), written.as_bytes(), "{text}");
    }
    Ok(())
}

#[test]
fn stops(rt: HostRuntime) -> Result<(), Fail> {
    let runs = [
        (
            "var x = 1\nx = x / 0",
            "10",
            "code 0003 ffff 0003 1001 4022 3022 1000 8005 4022 0000\n4 2 division 2\nvar x 1\nend 10 2\n",
        ),
        (
            "var a[3]\nvar i = 3\na[i] = 7",
            "10",
            "code 0003 ffff 0003 1003 4025 1007 3025 6022 0003 0000\n4 2 bounds 3 3 3\nvar a 0 0 0\nvar i 3\nend 10 2\n",
        ),
    ];
    all_run(rt.alloc(), &rt, &runs)
}

#[test]
fn loops_and_subroutines(rt: HostRuntime) -> Result<(), Fail> {
    let runs = [
        (
            "var i\nfor i in 1:2 do\nend",
            "30",
            "code 0003 ffff 0003 1001 4022 3022 1002 a00f 0007 3022 1001 8002 4022 9ff8 0000\nvar i 3\nend 30 9\n",
        ),
        (
            "var x\ncallsub s\nsub s\nx = 5",
            "10",
            "code 0003 ffff 0003 d005 0000 1005 4022 e000\nvar x 5\nend 10 4\n",
        ),
    ];
    all_run(rt.alloc(), &rt, &runs)
}

#[test]
fn whens_and_both_sides_of_and(rt: HostRuntime) -> Result<(), Fail> {
    let runs = [
        (
            "var n\nvar i\nfor i in 0:3 do\nwhen i > 0 do\nn++\nend\nend",
            "100",
            "code 0003 ffff 0003 1000 4023 3023 1003 a00f 000f 3023 1000 a10c 0006 3022 1001 8002 4022 3023 1001 8002 4023 9ff0 0000\nvar n 1\nvar i 4\nend 100 20\n",
        ),
        (
            "var a[2]\nvar i = 2\nif i < 2 and a[i] == 1 then\nend",
            "20",
            "code 0003 ffff 0003 1002 4024 3024 1002 800e 3024 5022 0002 1001 800a a011 0002 0000\n6 2 bounds 3 2 2\nvar a 0 0\nvar i 2\nend 20 2\n",
        ),
    ];
    all_run(rt.alloc(), &rt, &runs)
}

#[test]
fn half_a_vector_is_stored(rt: HostRuntime) -> Result<(), Fail> {
    let text = "var a[2] = [1,2]\na = [a[1], a[0]]";
    for (ticks, ending) in [
        ("15", "\nvar a 1 2\nend 15 2\n"),
        ("16", "\nvar a 2 2\nend 16 3\n"),
        ("40", "\nvar a 2 1\nend 40 5\n"),
    ] {
        let code =
            "code 0003 ffff 0003 1001 4024 1002 4025 3024 4022 3025 4023 1001 5022 0002 4024 1000 5022 0002 4025 3024 4022 3025 4023 0000";
        let written = format!(in rt.alloc(); "{code}{ending}")?;
        let runs = [(text, ticks, written.as_str())];
        all_run(rt.alloc(), &rt, &runs)?;
    }
    Ok(())
}

#[test]
fn a_zero_divisor_of_a_native(rt: HostRuntime) -> Result<(), Fail> {
    let text = "var a[2] = [6,6]\nvar b[2] = [2,0]\ncall math.div(a, a, b)";
    let ran = ran_with(
        rt.alloc(),
        "sim|default|x.aseba|60",
        text.as_bytes(),
        0,
        1000,
    )?;
    assert_eq!(rt; ran.number, 0);
    let written = std::str::from_utf8(ran.out.bytes()).unwrap_or("");
    assert!(rt; written.contains(" division 3\nvar a 3 6\nvar b 2 0\nend 60 "));
    Ok(())
}

/// A sum in so many pairs of parentheses.
fn nested(alloc: Global, pairs: usize) -> Result<String, Mem> {
    let mut text = String::from_str(alloc, "var x\nx = ")?;
    for _ in 0..pairs {
        text.push_str("x + (")?;
    }
    text.push_str("x + x")?;
    for _ in 0..pairs {
        text.push_str(")")?;
    }
    Ok(text)
}

#[test]
fn cells_and_stack_are_too_few(rt: HostRuntime) -> Result<(), Fail> {
    let deepest = nested(rt.alloc(), 62)?;
    let ran = ran_with(
        rt.alloc(),
        "sim|default|x.aseba|5",
        deepest.as_bytes(),
        0,
        3000,
    )?;
    assert_eq!(rt; ran.number, 0);
    let deeper = nested(rt.alloc(), 63)?;
    let texts = [
        (deeper.as_str(), "StackFull need 65 have 64"),
        (
            "var a[990]\na[1:989] = a[0:988]",
            "VariablesFull need 2013 have 1024",
        ),
    ];
    all_refused(rt.alloc(), &rt, &texts)
}

#[test]
fn faults(rt: HostRuntime) -> Result<(), Fail> {
    let texts = [
        ("var a[2]\na = [1, nobody, 3]", "2:9 Unknown"),
        ("var x\nvar x[0]", "2:5 Duplicate"),
        ("sub a\ncallsub b\nsub b\ncallsub a", "4:9 Recursion"),
        ("var x = event.args", "1:7 BadSize want 1 got 32"),
        ("emit pair 1", "1:11 EventSize want 2 got 1"),
        ("var a\ncall math.fill(a)", "2:6 ArgCount want 2 got 1"),
        ("var a[2]\nfor a in 1:2 do\nend", "2:5 NotScalar"),
        ("var a[991]", "VariablesFull need 1025 have 1024"),
        ("var x\nvar i\nfor i in x:3 do\nend", "3:10 NotConstant"),
        ("var a[3]\na[1 % 0] = 1", "2:5 ConstantDivision"),
        ("var i\nfor i in 0:3 step 0 do\nend", "2:19 ZeroStep"),
        ("var a[3]\na[-1] = 1", "2:1 IndexOut size 3 index -1"),
        ("var a[3]\na[3] = 1", "2:1 IndexOut size 3 index 3"),
        ("var a[2]\na = [1, 2, 3]", "2:3 BadSize want 2 got 3"),
        ("x = 1", "1:1 Unknown"),
    ];
    all_refused(rt.alloc(), &rt, &texts)
}

/// A line, and then another so many times.
fn repeated(alloc: Global, first: &str, line: &str, times: usize) -> Result<String, Mem> {
    let mut text = String::from_str(alloc, first)?;
    for _ in 0..times {
        text.push_str(line)?;
    }
    Ok(text)
}

#[test]
fn sources_that_are_too_large(rt: HostRuntime) -> Result<(), Fail> {
    // The node has 2048 words: 3 of the event table, 2 for each assignment, and the end of the code.
    let full = repeated(rt.alloc(), "var x\n", "x = 1\n", 1022)?;
    let mut written = repeated(rt.alloc(), "code 0003 ffff 0003", " 1001 4022", 1022)?;
    written.push_str(" 0000\nvar x 0\nend 0 0\n")?;
    let ran = ran_with(
        rt.alloc(),
        "sim|default|x.aseba|0",
        full.as_bytes(),
        0,
        20_000,
    )?;
    assert_eq!(rt; ran.number, 0);
    assert_eq!(rt; ran.out.bytes(), written.as_bytes());
    let mut over = repeated(rt.alloc(), "var x\n", "x = 1\n", 1021)?;
    over.push_str("x = 2048\n")?;
    let ran = ran_with(
        rt.alloc(),
        "sim|default|x.aseba|0",
        over.as_bytes(),
        0,
        20_000,
    )?;
    assert_eq!(rt; ran.number, 4);
    assert_eq!(rt;
        ran.err.bytes(),
        b"aseba: refused CodeFull need 2049 have 2048\n".as_slice()
    );
    Ok(())
}

#[test]
fn variables_fill_the_node(rt: HostRuntime) -> Result<(), Fail> {
    // The node has 1024 cells, 34 of them its own.
    let ran = ran_with(rt.alloc(), "sim|default|x.aseba|5", b"var a[990]", 0, 3000)?;
    let mut written = repeated(rt.alloc(), "code 0003 ffff 0003 0000\nvar a", " 0", 990)?;
    written.push_str("\nend 5 1\n")?;
    assert_eq!(rt; ran.number, 0);
    assert_eq!(rt; ran.out.bytes(), written.as_bytes());
    let mut text = String::new(rt.alloc());
    for place in 0..991 {
        let line = format!(in rt.alloc(); "var v{place}\n")?;
        text.push_str(&line)?;
    }
    let told = [(text.as_str(), "VariablesFull need 1025 have 1024")];
    all_refused(rt.alloc(), &rt, &told)
}

#[test]
fn files_that_are_not_read(rt: HostRuntime) -> Result<(), Fail> {
    let ran = ran_with(rt.alloc(), "sim|default|missing|5", b"", 0, 1000)?;
    assert_eq!(rt; ran.number, 2);
    assert_eq!(rt; ran.err.bytes(), b"aseba: no file missing\n".as_slice());
    let ran = ran_with(rt.alloc(), "sim|default|x.aseba|5", b"", 1, 1000)?;
    assert_eq!(rt; ran.number, 3);
    assert_eq!(rt; ran.err.bytes(), b"aseba: read failed\n".as_slice());
    let long = vec![in rt.alloc(); b' '; 1_048_577]?;
    let ran = ran_with(
        rt.alloc(),
        "sim|default|x.aseba|5",
        long.as_slice(),
        0,
        1000,
    )?;
    assert_eq!(rt; ran.number, 9);
    assert_eq!(rt; ran.err.bytes(), b"aseba: too big x.aseba\n".as_slice());
    let ran = ran_with(rt.alloc(), "sim|default|x.aseba|5", &long[1..], 0, 1000)?;
    assert_eq!(rt; ran.number, 0);
    Ok(())
}

const TINY: &[u8] = b"node tiny
code 40
vars 20
stack 4
id 7
# the id lies behind the arguments
variable event.args 3
variable _id 1
native math.copy -1 to -1 from ; copies
event hello 0
const ten 10
";

#[test]
fn a_file_is_the_project(rt: HostRuntime) -> Result<(), Fail> {
    let ran = ran_for(
        rt.alloc(),
        "sim|p|x.aseba|10",
        TINY,
        b"var x = _id\nx = x + 1\n",
    )?;
    assert_eq!(rt; ran.number, 0);
    assert_eq!(rt;
        ran.out.bytes(),
        b"code 0003 ffff 0003 3003 4004 3004 1001 8002 4004 0000\nvar x 8\nend 10 3\n".as_slice()
    );
    let ran = ran_for(
        rt.alloc(),
        "sim|p|x.aseba|10",
        TINY,
        b"var x = ten - (1 + ten)",
    )?;
    assert_eq!(rt; ran.number, 0);
    assert_eq!(rt;
        ran.out.bytes(),
        b"code 0003 ffff 0003 100a 1001 100a 8002 8003 4004 0000\nvar x -1\nend 10 2\n".as_slice()
    );
    for (text, told) in [
        ("var ten", "aseba: refused 1:5 Duplicate\n"),
        (
            "var x = 1 + (1 + (1 + (1 + 1)))",
            "aseba: refused StackFull need 5 have 4\n",
        ),
    ] {
        let ran = ran_for(rt.alloc(), "sim|p|x.aseba|10", TINY, text.as_bytes())?;
        assert_eq!(rt; ran.number, 4);
        assert_eq!(rt; ran.err.bytes(), told.as_bytes());
    }
    Ok(())
}

/// A project of so many words that a jump of one word doesn't reach all of them.
const LARGE: &[u8] = b"node sim
code 32767
vars 1024
stack 64
id 1
variable _id 1
variable event.source 1
variable event.args 32
event ping 0
";

#[test]
fn jumps_and_subroutines_of_large_code(rt: HostRuntime) -> Result<(), Fail> {
    let text = b"var i\nfor i in 1:2 do\nend";
    let ran = ran_for(rt.alloc(), "sim|p|x.aseba|30", LARGE, text)?;
    assert_eq!(rt; ran.number, 0);
    assert_eq!(rt;
        ran.out.bytes(),
        b"code 0003 ffff 0003 1001 4022 3022 1002 a00f 000a 3022 1001 8002 4022 1000 1000 a00b fff6 0000\nvar i 3\nend 30 9\n".as_slice()
    );
    let mut far = repeated(rt.alloc(), "var x\nsub a\n", "x = 1\n", 2046)?;
    far.push_str("sub b\n")?;
    let ran = ran_for(rt.alloc(), "sim|p|x.aseba|0", LARGE, far.as_bytes())?;
    assert_eq!(rt; ran.number, 4);
    assert_eq!(rt;
        ran.err.bytes(),
        b"aseba: refused 2049:5 SubroutineFar start 4096\n".as_slice()
    );
    Ok(())
}

#[test]
fn projects_that_are_not_taken(rt: HostRuntime) -> Result<(), Fail> {
    for (project, told) in [
        ("node 3\n", "aseba: project line 1\n"),
        ("", "aseba: project line 1\n"),
        (
            "node n\ncode 4\nvars 1\nstack 1\nid 1\nnative math.fill -1 d 1 v ; fill\n",
            "aseba: project line 6\n",
        ),
        (
            "node n\ncode 4\nvars 1\n#\nstack 1\nid 1\nnative math.copy -1 d -1 s ; \nnative math.fill -1 d -1 v ; fill",
            "aseba: project line 8\n",
        ),
        (
            "node n\ncode 4\nvars 1\nstack 1\nid 1\nnative f ; \nevent e 257",
            "aseba: project line 7\n",
        ),
    ] {
        let ran = ran_for(rt.alloc(), "sim|p|missing|5", project.as_bytes(), b"")?;
        assert_eq!(rt; ran.number, 5);
        assert_eq!(rt; ran.out.bytes(), b"".as_slice());
        assert_eq!(rt; ran.err.bytes(), told.as_bytes());
    }
    let ran = ran_for(rt.alloc(), "sim|q|missing|5", TINY, b"")?;
    assert_eq!(rt; ran.number, 2);
    assert_eq!(rt; ran.err.bytes(), b"aseba: no file q\n".as_slice());
    Ok(())
}

#[test]
fn a_sink_that_fails_has_the_first_bytes(rt: HostRuntime) -> Result<(), Fail> {
    let whole = b"code 0003 ffff 0003 0000\nend 5 1\n";
    for room in 0..whole.len() {
        let ran = ran_with(rt.alloc(), "sim|default|x.aseba|5", b"", 0, room)?;
        assert_eq!(rt; ran.number, 7);
        assert_eq!(rt; ran.out.bytes(), &whole[..room]);
        assert_eq!(rt; ran.err.bytes(), b"aseba: write failed\n".as_slice());
    }
    Ok(())
}

#[test]
fn an_err_that_fails_has_the_first_bytes(rt: HostRuntime) -> Result<(), Fail> {
    let whole = b"aseba: no file missing\n";
    for room in 0..=whole.len() {
        let files = List::new(rt.alloc());
        let ran = ran_over(rt.alloc(), "sim|default|missing|5", files, 0, 1000, room)?;
        assert_eq!(rt; ran.number, 2);
        assert_eq!(rt; ran.out.bytes(), b"".as_slice());
        assert_eq!(rt; ran.err.bytes(), &whole[..room]);
    }
    Ok(())
}

#[test]
fn codes_are_written(rt: HostRuntime) -> Result<(), Fail> {
    for (text, written) in [
        ("", "code 0003 ffff 0003 0000\n"),
        (
            "var i\nfor i in 1:2 do\nend",
            "code 0003 ffff 0003 1001 4022 3022 1002 a00f 0007 3022 1001 8002 4022 9ff8 0000\n",
        ),
        (
            "var x\ncallsub s\nsub s\nx = 5",
            "code 0003 ffff 0003 d005 0000 1005 4022 e000\n",
        ),
        (
            "var x = 1\nonevent ping\nx = x + 1\nemit pong",
            "code 0005 ffff 0005 0000 0008 1001 4022 0000 3022 1001 8002 4022 b001 0000 0000 0000\n",
        ),
    ] {
        let ran = ran_with(
            rt.alloc(),
            "compile|default|x.aseba",
            text.as_bytes(),
            0,
            1000,
        )?;
        assert_eq!(rt; ran.number, 0, "{text}");
        assert_eq!(rt; ran.out.bytes(), written.as_bytes(), "{text}");
        assert_eq!(rt; ran.err.bytes(), b"".as_slice());
    }
    Ok(())
}

#[test]
fn codes_that_are_not_written(rt: HostRuntime) -> Result<(), Fail> {
    for (line, text, number, told) in [
        (
            "compile|default|x.aseba",
            "x = 1",
            4,
            "aseba: refused 1:1 Unknown\n",
        ),
        (
            "compile|default|x.aseba",
            "x = 40000",
            4,
            "aseba: refused 1:5 BadNumber\n",
        ),
        (
            "compile|default|x.aseba",
            "var a[991]",
            4,
            "aseba: refused VariablesFull need 1025 have 1024\n",
        ),
        ("compile|default|missing", "", 2, "aseba: no file missing\n"),
        (
            "compile|x.aseba|missing",
            "node 3\n",
            5,
            "aseba: project line 1\n",
        ),
    ] {
        let ran = ran_with(rt.alloc(), line, text.as_bytes(), 0, 1000)?;
        assert_eq!(rt; ran.number, number, "{line} {text}");
        assert_eq!(rt; ran.out.bytes(), b"".as_slice());
        assert_eq!(rt; ran.err.bytes(), told.as_bytes());
    }
    Ok(())
}

#[test]
fn a_code_that_is_cut_short(rt: HostRuntime) -> Result<(), Fail> {
    let whole = b"code 0003 ffff 0003 0000\n";
    for room in 0..whole.len() {
        let ran = ran_with(rt.alloc(), "compile|default|x.aseba", b"", 0, room)?;
        assert_eq!(rt; ran.number, 7);
        assert_eq!(rt; ran.out.bytes(), &whole[..room]);
        assert_eq!(rt; ran.err.bytes(), b"aseba: write failed\n".as_slice());
    }
    Ok(())
}

/// Source 1, kind 1, and a payload of two words.
const ONE: &[u8] = &[4, 0, 1, 0, 1, 0, 3, 0, 255, 255];

const ONE_LINE: &[u8] = b"0 1 raw 0001 0300ffff\n";

#[test]
fn frames_are_dumped(rt: HostRuntime) -> Result<(), Fail> {
    let bad = [4, 0, 1, 0, 1, 0, 3, 0, 255, 255, 1, 4, 0];
    for (bytes, number, written, told) in [
        (ONE, 0, ONE_LINE, ""),
        (&[], 0, b"", ""),
        (&ONE[..5], 0, b"rest 5\n", ""),
        (&bad[10..12], 10, b"", "aseba: bad frame at 0\n"),
        (&bad[..12], 10, ONE_LINE, "aseba: bad frame at 10\n"),
        (&bad, 10, ONE_LINE, "aseba: bad frame at 10\n"),
        (&[0, 0, 7, 0, 0xcd, 0xab], 0, b"0 7 raw abcd -\n", ""),
    ] {
        let ran = ran_with(rt.alloc(), "dump|x.aseba|--raw", bytes, 0, 1000)?;
        assert_eq!(rt; ran.number, number);
        assert_eq!(rt; ran.out.bytes(), written);
        assert_eq!(rt; ran.err.bytes(), told.as_bytes());
    }
    Ok(())
}

#[test]
fn a_sink_that_fails_in_mid_stream_has_the_first_bytes(rt: HostRuntime) -> Result<(), Fail> {
    let mut bytes = Vec::new(rt.alloc());
    let mut lines = Vec::new(rt.alloc());
    for _ in 0..4000 {
        bytes.extend_from_slice(ONE)?;
        lines.extend_from_slice(ONE_LINE)?;
    }
    let ran = ran_with(
        rt.alloc(),
        "dump|x.aseba|--raw",
        bytes.as_slice(),
        0,
        40_000,
    )?;
    assert_eq!(rt; ran.number, 7);
    assert_eq!(rt; Some(ran.out.bytes()), lines.as_slice().get(..40_000));
    let ran = ran_with(
        rt.alloc(),
        "dump|x.aseba|--raw",
        bytes.as_slice(),
        0,
        100_000,
    )?;
    assert_eq!(rt; ran.number, 0);
    assert_eq!(rt; ran.out.bytes(), lines.as_slice());
    Ok(())
}

#[test]
fn files_that_are_not_dumped(rt: HostRuntime) -> Result<(), Fail> {
    let ran = ran_with(rt.alloc(), "dump|missing|--raw", b"", 0, 1000)?;
    assert_eq!(rt; ran.number, 2);
    let ran = ran_with(rt.alloc(), "dump|x.aseba|--raw", ONE, 1, 1000)?;
    assert_eq!(rt; ran.number, 3);
    let long = vec![in rt.alloc(); 0; 67_108_865]?;
    let ran = ran_with(rt.alloc(), "dump|x.aseba|--raw", long.as_slice(), 0, 1000)?;
    assert_eq!(rt; ran.number, 9);
    assert_eq!(rt; ran.out.bytes(), b"".as_slice());
    assert_eq!(rt; ran.err.bytes(), b"aseba: too big x.aseba\n".as_slice());
    Ok(())
}
