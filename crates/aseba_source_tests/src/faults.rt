//! One source for each rule of the language and each kind of place, with what is told of it.
use aseba_check::CheckError;
use aseba_compile::{Refusal, compile};
use aseba_tree::{Const, Description, Local, Native, Param, Pos, Project, Sized};
use aseba_words::{List, Mem, Name};
use std::alloc::{AllocError, Global};
use std::process::Abort;
use std::test::Fail;

fn push<T: Drop>(list: &mut List<T>, value: T) -> Result<(), Mem> {
    match list.push(value) {
        Ok(()) => Ok(()),
        Err(_) => Err(Mem),
    }
}

fn sized(alloc: Global, rows: &[(&str, u16)]) -> Result<List<Sized>, Mem> {
    let mut list = List::new(alloc);
    for (name, size) in rows {
        let name = Name::new(alloc, name.as_bytes())?;
        push(&mut list, Sized { name, size: *size })?;
    }
    Ok(list)
}

fn consts(alloc: Global, rows: &[(&str, i16)]) -> Result<List<Const>, Mem> {
    let mut list = List::new(alloc);
    for (name, value) in rows {
        let name = Name::new(alloc, name.as_bytes())?;
        push(
            &mut list,
            Const {
                name,
                value: *value,
            },
        )?;
    }
    Ok(list)
}

fn locals(alloc: Global, rows: &[&str]) -> Result<List<Local>, Mem> {
    let mut list = List::new(alloc);
    for name in rows {
        let text = Name::new(alloc, b"".as_slice())?;
        let name = Name::new(alloc, name.as_bytes())?;
        push(&mut list, Local { name, text })?;
    }
    Ok(list)
}

fn native(alloc: Global, name: &str, sizes: &[i16]) -> Result<Native, Mem> {
    let mut params = List::new(alloc);
    for size in sizes {
        let name = Name::new(alloc, b"p".as_slice())?;
        push(&mut params, Param { size: *size, name })?;
    }
    Ok(Native {
        name: Name::new(alloc, name.as_bytes())?,
        text: Name::new(alloc, b"".as_slice())?,
        params,
    })
}

fn natives(alloc: Global) -> Result<List<Native>, Mem> {
    let mut list = List::new(alloc);
    push(&mut list, native(alloc, "copy", &[-1, -1])?)?;
    push(&mut list, native(alloc, "one", &[1])?)?;
    push(&mut list, native(alloc, "none", &[])?)?;
    Ok(list)
}

/// A project of which names stand for a variable and a constant, and for an event and a local one.
fn project(alloc: Global, code: u16) -> Result<Project, Mem> {
    let node = Description {
        name: Name::new(alloc, b"sim".as_slice())?,
        code,
        stack: 64,
        cells: 4096,
        variables: sized(alloc, &[("node", 34), ("out", 1)])?,
        locals: locals(alloc, &["tick", "both"])?,
        natives: natives(alloc)?,
    };
    Ok(Project {
        node,
        id: 1,
        events: sized(alloc, &[("ping", 0), ("pair", 2), ("both", 1)])?,
        consts: consts(alloc, &[("five", 5), ("node", 3), ("low", -1)])?,
    })
}

/// A fault with its place, and its two numbers where it has some.
fn shown(
    alloc: Global,
    at: Pos,
    what: &str,
    numbers: Option<(i64, i64)>,
) -> Result<String, AllocError> {
    let line = at.line;
    let col = at.col;
    match numbers {
        None => format!(in alloc; "{line}:{col} {what}"),
        Some((a, b)) => format!(in alloc; "{line}:{col} {what} {a} {b}"),
    }
}

fn told(alloc: Global, error: CheckError) -> Result<String, AllocError> {
    match error {
        CheckError::Unknown { at } => shown(alloc, at, "Unknown", None),
        CheckError::Duplicate { at } => shown(alloc, at, "Duplicate", None),
        CheckError::NotConstant { at } => shown(alloc, at, "NotConstant", None),
        CheckError::ConstantDivision { at } => shown(alloc, at, "ConstantDivision", None),
        CheckError::ZeroStep { at } => shown(alloc, at, "ZeroStep", None),
        CheckError::BadSize { at, want, got } => shown(alloc, at, "BadSize", Some((want, got))),
        CheckError::IndexOut { at, size, index } => shown(
            alloc,
            at,
            "IndexOut",
            Some((size, index)),
        ),
        CheckError::NotScalar { at } => shown(alloc, at, "NotScalar", None),
        CheckError::EventSize { at, want, got } => shown(alloc, at, "EventSize", Some((want, got))),
        CheckError::ArgCount { at, want, got } => shown(alloc, at, "ArgCount", Some((want, got))),
        CheckError::Recursion { at } => shown(alloc, at, "Recursion", None),
        CheckError::VariablesFull { need, have } => format!(in alloc;
            "VariablesFull {need} {have}"
        ),
        CheckError::SubroutineFar { at, start } => {
            let line = at.line;
            let col = at.col;
            format!(in alloc; "{line}:{col} SubroutineFar {start}")
        }
        CheckError::Mem => String::from_str(alloc, "out of memory"),
    }
}

/// What is told of a source: the fault of its tree, or that it has none.
fn answer(alloc: Global, text: &[u8], code: u16) -> Result<String, AllocError> {
    let Ok(project) = project(alloc, code) else {
        return String::from_str(alloc, "out of memory");
    };
    if !project.inside() || text.len() > 1_000_000 {
        return String::from_str(alloc, "not inside");
    }
    match compile(alloc, text, &project) {
        Err(Refusal::Check(error)) => told(alloc, error),
        Err(Refusal::Lex(_)) | Err(Refusal::Syntax(_)) | Err(Refusal::Mem) => {
            String::from_str(alloc, "not read")
        }
        Ok(_) | Err(Refusal::Expand(_)) | Err(Refusal::Gen(_)) => {
            String::from_str(alloc, "sound")
        }
    }
}

fn all_told(alloc: Global, rt: &impl Abort, rows: &[(&str, &str)]) -> Result<(), Fail> {
    for (text, want) in rows {
        let got = answer(alloc, text.as_bytes(), 2048)?;
        assert_eq!(rt; got.as_str(), *want, "{text}");
    }
    Ok(())
}

const NAMES: &[(&str, &str)] = &[
    ("x = 1", "1:1 Unknown"),
    ("var a\na = x", "2:5 Unknown"),
    ("var a\na = x[0]", "2:5 Unknown"),
    ("var a[2]\na = x[0:1]", "2:5 Unknown"),
    ("for i in 0:1 do end", "1:5 Unknown"),
    ("emit nothing", "1:6 Unknown"),
    ("emit tick", "1:6 Unknown"),
    ("onevent nothing", "1:9 Unknown"),
    ("callsub nobody", "1:9 Unknown"),
    ("callsub tick onevent tick", "1:9 Unknown"),
    ("call nothing()", "1:6 Unknown"),
    ("var a = a", "1:9 Unknown"),
    ("var a[a]", "1:7 Unknown"),
    ("five = 1", "1:1 Unknown"),
    ("var a\na = five[0]", "2:5 Unknown"),
    ("var a[2]\nvar b = u[0]", "2:9 Unknown"),
    ("x++", "1:1 Unknown"),
    ("x += 1", "1:1 Unknown"),
    ("var a var a", "1:11 Duplicate"),
    ("var node", "1:5 Duplicate"),
    ("var five", "1:5 Duplicate"),
    ("sub s sub s", "1:11 Duplicate"),
    ("onevent ping onevent ping", "1:22 Duplicate"),
    ("var a[nobody]", "1:7 Unknown"),
    ("sub a callsub a", "1:15 Recursion"),
    (
        "sub a\ncallsub b\nsub b\ncallsub c\nsub c\ncallsub a",
        "6:9 Recursion",
    ),
    (
        "sub a\ncallsub b\ncallsub b\nsub b\ncallsub a\ncallsub a",
        "5:9 Recursion",
    ),
    (
        "sub a if out then while out do callsub a end end",
        "1:40 Recursion",
    ),
    (
        "sub a callsub b\nsub b callsub a\nout = x",
        "2:15 Recursion",
    ),
    ("sub a callsub b\nsub b out = x callsub a", "2:13 Unknown"),
    ("sub a callsub nobody", "1:15 Unknown"),
    ("sub a sub a callsub a", "1:11 Duplicate"),
    (
        "sub s\ncallsub t\nsub u\ncallsub s\nsub t\ncallsub u",
        "6:9 Recursion",
    ),
    (
        "onevent ping\ncallsub a\nsub b\ncallsub c\nsub c\ncallsub b\nsub a\ncallsub a",
        "6:9 Recursion",
    ),
    (
        "onevent ping\ncallsub a\nsub c\ncallsub b\nsub b\ncallsub a\nsub a\ncallsub a",
        "8:9 Recursion",
    ),
    ("var a[4000] var b[62] out = x", "1:29 Unknown"),
];

#[test]
fn faults_of_names(rt: HostRuntime) -> Result<(), Fail> {
    all_told(rt.alloc(), &rt, NAMES)
}

const CONSTANTS: &[(&str, &str)] = &[
    ("var a[out]", "1:7 NotConstant"),
    ("var a[1 + nobody]", "1:7 NotConstant"),
    ("var a[node]", "1:7 NotConstant"),
    ("var a[(1 + out) * 2]", "1:7 NotConstant"),
    ("var i for i in out:3 do end", "1:16 NotConstant"),
    ("var i for i in 0:out do end", "1:18 NotConstant"),
    ("var i for i in 0:3 step i do end", "1:25 NotConstant"),
    ("var a[3] a[0:out] = [1, 2, 3]", "1:14 NotConstant"),
    ("var a[3] a[9:out] = 1", "1:10 IndexOut 3 9"),
    ("var a[4 / 0]", "1:9 ConstantDivision"),
    ("var a[3] a[1 % 0] = 1", "1:14 ConstantDivision"),
    ("var a[3] a[1 / 0 : 2] = 1", "1:14 ConstantDivision"),
    ("var i for i in 0:1 / 0 do end", "1:20 ConstantDivision"),
    ("var i\nfor i in 0:3 step 0 do end", "2:19 ZeroStep"),
    (
        "var i\nfor i in 0:3 step (five - 5) do end",
        "2:19 ZeroStep",
    ),
    ("var a[3]\na[3] = 1", "2:1 IndexOut 3 3"),
    ("var a[3]\nout = a[low]", "2:7 IndexOut 3 -1"),
    ("var a[3]\na[2:0] = 1", "2:1 IndexOut 3 0"),
    ("var a[3]\na[1:3] = 1", "2:1 IndexOut 3 3"),
    ("var a[3]\na[3:1] = 1", "2:1 IndexOut 3 3"),
    ("var a[3]\na[4:5] = 1", "2:1 IndexOut 3 4"),
];

#[test]
fn faults_of_constants(rt: HostRuntime) -> Result<(), Fail> {
    all_told(rt.alloc(), &rt, CONSTANTS)
}

const SIZES: &[(&str, &str)] = &[
    ("var a\na = x[0:1]", "2:3 BadSize 1 2"),
    ("var a[2]\na = u[0]", "2:3 BadSize 2 1"),
    ("var a[2] var b[3] a = a + b", "1:25 BadSize 2 3"),
    ("var a[2]\na = [1, 2, 3]", "2:3 BadSize 2 3"),
    ("var a[2]\na += [1, 2, 3]", "2:3 BadSize 2 3"),
    ("var a[2]\na = a + [1, 2, a[7]]", "2:7 BadSize 2 3"),
    ("var a[2]\na[0] = a", "2:6 BadSize 1 2"),
    ("var a[2]\na[0:1] = 3", "2:8 BadSize 2 1"),
    ("var a[2] = 1", "1:10 BadSize 2 1"),
    ("var a[0]", "1:5 BadSize 1 0"),
    ("var a[low]", "1:5 BadSize 1 -1"),
    ("var a[4097]", "1:5 BadSize 4096 4097"),
    ("var a[2] var b[3] call copy(a, b)", "1:32 BadSize 2 3"),
    ("call one([1, 2])", "1:10 BadSize 1 2"),
    ("call one((out + [1, 2]))", "1:15 BadSize 1 2"),
    ("var a[3] if a then end", "1:13 NotScalar"),
    ("var a[3] if a == 1 then end", "1:13 NotScalar"),
    ("var a[3] if 1 == a then end", "1:18 NotScalar"),
    ("var a[3] if (1 + 2) and (a) then end", "1:25 NotScalar"),
    ("var a[3] when not a do end", "1:19 NotScalar"),
    ("var a[3] while [a] do end", "1:16 NotScalar"),
    ("var a[3] a[a] = 1", "1:12 NotScalar"),
    ("var a[3]\nfor a in 0:3 do end", "2:5 NotScalar"),
    ("var a[[3, 4]]", "1:7 NotScalar"),
    ("emit pair 1", "1:11 EventSize 2 1"),
    ("emit pair (1)", "1:11 EventSize 2 1"),
    ("emit both [1, 2]", "1:11 EventSize 1 2"),
    ("call copy(node)", "1:6 ArgCount 2 1"),
    ("call copy(node, node, node)", "1:6 ArgCount 2 3"),
    ("call none(out)", "1:6 ArgCount 0 1"),
    ("call none(x)", "1:6 ArgCount 0 1"),
    ("var a[4090]", "VariablesFull 4125 4096"),
    ("var a[4000] var b[62]", "VariablesFull 4097 4096"),
];

#[test]
fn faults_of_sizes(rt: HostRuntime) -> Result<(), Fail> {
    all_told(rt.alloc(), &rt, SIZES)
}

const SOUND: &[(&str, &str)] = &[
    ("", "sound"),
    ("onevent tick onevent both", "sound"),
    ("callsub s sub s", "sound"),
    ("var a var b = a", "sound"),
    ("var a\na = five", "sound"),
    ("sub ping onevent ping", "sound"),
    ("var ping", "sound"),
    ("var a[3] a[out / 0] = 1", "sound"),
    ("out = 1 / 0", "sound"),
    ("var a[4000]", "sound"),
    ("var a[2] call copy(a, [1, 2])", "sound"),
    ("call one(out) call none()", "sound"),
    ("var a[[3]]", "sound"),
    ("emit pair [1, 2] emit ping", "sound"),
    (
        "sub a callsub b sub b return onevent ping callsub a callsub a",
        "sound",
    ),
    (
        "callsub a sub a callsub b sub b callsub c callsub d sub c callsub d sub d",
        "sound",
    ),
    ("var a[4000] var b[61]", "sound"),
];

#[test]
fn sound_sources(rt: HostRuntime) -> Result<(), Fail> {
    all_told(rt.alloc(), &rt, SOUND)
}

/// `sub a` of so many stores and two subroutines behind it.
fn far(alloc: Global, stores: usize, head: &str) -> Result<String, AllocError> {
    let mut text = String::from_str(alloc, head)?;
    for _ in 0..stores {
        text.push_str("out = 1\n")?;
    }
    text.push_str("sub b\nsub c\n")?;
    Ok(text)
}

#[test]
fn subroutines_that_begin_too_far_behind(rt: HostRuntime) -> Result<(), Fail> {
    let alloc = rt.alloc();
    let near = far(alloc, 2045, "sub a\n")?;
    assert_eq!(rt; answer(alloc, near.as_bytes(), 4096)?.as_str(), "sound");
    let text = far(alloc, 2046, "sub a\n")?;
    assert_eq!(rt;
        answer(alloc, text.as_bytes(), 4096)?.as_str(),
        "2048:5 SubroutineFar 4096"
    );
    assert_eq!(rt; answer(alloc, text.as_bytes(), 2048)?.as_str(), "sound");
    let one = far(alloc, 2045, "onevent ping\nsub a\n")?;
    assert_eq!(rt;
        answer(alloc, one.as_bytes(), 4096)?.as_str(),
        "2048:5 SubroutineFar 4096"
    );
    let jump = far(alloc, 2041, "sub a while out do end\n")?;
    assert_eq!(rt; answer(alloc, jump.as_bytes(), 4096)?.as_str(), "sound");
    let jumps = far(alloc, 2042, "sub a while out do end\n")?;
    assert_eq!(rt;
        answer(alloc, jumps.as_bytes(), 4096)?.as_str(),
        "2044:5 SubroutineFar 4096"
    );
    Ok(())
}
