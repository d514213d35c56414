//! Sources with their words, and refusals.
use aseba_check::CheckError;
use aseba_codegen::GenError;
use aseba_compile::{Program, Refusal, compile};
use aseba_describe::default_project;
use aseba_expand::ExpandError;
use aseba_tree::Pos;
use aseba_words::Mem;
use std::alloc::Global;
use std::process::Abort;
use std::test::Fail;

#[test]
fn a_sum_is_compiled(rt: HostRuntime) -> Result<(), Fail> {
    let project = default_project(rt.alloc())?;
    let Ok(program) = compile(rt.alloc(), b"var x = 1\nx = x + 1\n", &project) else {
        return Err(Fail::from("refused"));
    };
    let words = [
        3, 0xffff, 3, 0x1001, 0x4022, 0x3022, 0x1001, 0x8002, 0x4022, 0,
    ];
    assert_eq!(rt; program.image.words.as_slice(), words.as_slice());
    let lines = [0, 0, 0, 1, 1, 2, 2, 2, 2, 1];
    assert_eq!(rt; program.image.lines.as_slice(), lines.as_slice());
    let [.., place] = program.places.as_slice() else {
        return Err(Fail::from("no places"));
    };
    assert_eq!(rt; place.name.as_bytes(), b"x".as_slice());
    assert_eq!(rt; (place.start, place.size), (34, 1));
    Ok(())
}

/// Sources with the words of their plain code on a node of 2048 words.
const WORDS: &[(&str, &[u16])] = &[
    (
        "var i\nfor i in 1:2 do\nend",
        &[
            3, 0xffff, 3, 0x1001, 0x4022, 0x3022, 0x1002, 0xa00f, 7, 0x3022, 0x1001, 0x8002,
            0x4022, 0x9ff8, 0,
        ],
    ),
    (
        "var x\ncallsub s\nsub s\nx = 5",
        &[3, 0xffff, 3, 0xd005, 0, 0x1005, 0x4022, 0xe000],
    ),
    (
        "var x = 1\nonevent ping\nx = x + 1\nemit pong",
        &[
            5, 0xffff, 5, 0, 8, 0x1001, 0x4022, 0, 0x3022, 0x1001, 0x8002, 0x4022, 0xb001, 0, 0, 0,
        ],
    ),
    (
        "var a[2] = [1,2]\nonevent ping\na = [a[1], a[0]]",
        &[
            5, 0xffff, 5, 0, 14, 0x1001, 0x4024, 0x1002, 0x4025, 0x3024, 0x4022, 0x3025, 0x4023, 0,
            0x1001, 0x5022, 2, 0x4024, 0x1000, 0x5022, 2, 0x4025, 0x3024, 0x4022, 0x3025, 0x4023,
            0,
        ],
    ),
    (
        "var n\nonevent pair\nwhen event.args[0] == 1 do\nn += 1\nend",
        &[
            5, 0xffff, 5, 2, 6, 0, 0x1000, 0x5002, 32, 0x1001, 0xa10a, 6, 0x3022, 0x1001, 0x8002,
            0x4022, 0,
        ],
    ),
    (
        "var a[2]\nvar b[2]\ncall math.div(a, a, [2, b[1]])",
        &[
            3, 0xffff, 3, 0x1002, 0x4026, 0x1001, 0x5024, 2, 0x4027, 0x2000, 0x22, 0x2000, 0x22,
            0x2000, 0x26, 0x1002, 0xc006, 0,
        ],
    ),
];

/// What a text is compiled to on the default node with so many words.
fn compiled(alloc: Global, text: &str, code: u16) -> Result<Result<Program, Refusal>, Fail> {
    let mut project = default_project(alloc)?;
    project.node.code = code;
    if !project.inside() || text.len() > 1_000_000 {
        return Err(Fail::from("not inside"));
    }
    Ok(compile(alloc, text.as_bytes(), &project))
}

/// Each text is compiled to its words.
fn all_compiled(alloc: Global, rt: &impl Abort, rows: &[(&str, &[u16])]) -> Result<(), Fail> {
    for (text, words) in rows {
        let Ok(program) = compiled(alloc, *text, 2048)? else {
            return Err(Fail::from("refused"));
        };
        assert_eq!(rt; program.image.words.as_slice(), *words, "{text}");
    }
    Ok(())
}

#[test]
fn each_form_has_its_words(rt: HostRuntime) -> Result<(), Fail> {
    all_compiled(rt.alloc(), &rt, WORDS)
}

#[test]
fn each_word_has_its_line(rt: HostRuntime) -> Result<(), Fail> {
    let text = "var n\nonevent pair\nwhen event.args[0] == 1 do\nn += 1\nend";
    let Ok(program) = compiled(rt.alloc(), text, 2048)? else {
        return Err(Fail::from("refused"));
    };
    let lines = [0, 0, 0, 0, 0, 1, 3, 3, 3, 3, 3, 3, 4, 4, 4, 4, 2];
    assert_eq!(rt; program.image.lines.as_slice(), lines.as_slice());
    Ok(())
}

#[test]
fn arrays_and_parentheses_are_compiled(rt: HostRuntime) -> Result<(), Fail> {
    let project = default_project(rt.alloc())?;
    let Ok(program) = compile(rt.alloc(), b"var a[2]\nvar x = 1 + (2 - 0x8000)", &project) else {
        return Err(Fail::from("refused"));
    };
    let words = [
        3, 0xffff, 3, 0x1001, 0x1002, 0x2000, 0x8000, 0x8003, 0x8002, 0x4024, 0,
    ];
    assert_eq!(rt; program.image.words.as_slice(), words.as_slice());
    let [.., array, place] = program.places.as_slice() else {
        return Err(Fail::from("no places"));
    };
    assert_eq!(rt; (array.start, array.size), (34, 2));
    assert_eq!(rt; (place.start, place.size), (36, 1));
    Ok(())
}

#[test]
fn faults_are_refused(rt: HostRuntime) -> Result<(), Fail> {
    let project = default_project(rt.alloc())?;
    let refused = compile(rt.alloc(), b"var x = y", &project);
    let at = Pos { line: 1, col: 9 };
    assert_eq!(rt;
        refused.err(),
        Some(Refusal::Check(CheckError::Unknown { at }))
    );
    let refused = compile(rt.alloc(), b"var a[991]", &project);
    let (need, have) = (1025, 1024);
    assert_eq!(rt;
        refused.err(),
        Some(Refusal::Check(CheckError::VariablesFull { need, have }))
    );
    Ok(())
}

/// A sum in so many pairs of parentheses, which takes two cells of the stack more than pairs.
fn nested(alloc: Global, pairs: usize) -> Result<String, Mem> {
    let mut text = String::from_str(alloc, "var x\nx = ")?;
    for _ in 0..pairs {
        text.push_str("x + (")?;
    }
    text.push_str("x + x")?;
    for _ in 0..pairs {
        text.push_str(")")?;
    }
    Ok(text)
}

fn words_are_full(need: u64, have: u64) -> Refusal {
    Refusal::Gen(GenError::CodeFull { need, have })
}

fn stack_is_full(need: u64, have: u64) -> Refusal {
    Refusal::Gen(GenError::StackFull { need, have })
}

fn cells_are_full(need: u64, have: u64) -> Refusal {
    Refusal::Expand(ExpandError::VariablesFull { need, have })
}

/// Each text is refused so on a node of so many words.
fn all_refused(alloc: Global, rt: &impl Abort, rows: &[(&str, u16, Refusal)]) -> Result<(), Fail> {
    for (text, code, want) in rows {
        let refused = compiled(alloc, *text, *code)?.err();
        assert_eq!(rt; refused, Some(*want), "{text}");
    }
    Ok(())
}

const SUM: &str = "var x = 1\nx = x + 1";

const VECTOR: &str = "var a[990]\na[1:989] = a[0:988]";

#[test]
fn too_long_is_refused(rt: HostRuntime) -> Result<(), Fail> {
    // A vector's code is refused before its cells are counted where it is eight times too long.
    let rows = [
        (SUM, 9, words_are_full(10, 9)),
        (VECTOR, 494, words_are_full(3960, 494)),
        (VECTOR, 495, cells_are_full(2013, 1024)),
        (VECTOR, 2048, cells_are_full(2013, 1024)),
    ];
    all_refused(rt.alloc(), &rt, &rows)
}

#[test]
fn too_deep_on_the_stack_is_refused(rt: HostRuntime) -> Result<(), Fail> {
    let deep = nested(rt.alloc(), 63)?;
    let rows = [
        (deep.as_str(), 133, words_are_full(134, 133)),
        (deep.as_str(), 134, stack_is_full(65, 64)),
    ];
    all_refused(rt.alloc(), &rt, &rows)
}
