//! Small sources and their trees or faults, worked by hand.
use aseba_describe::{ProjectError, read_project};
use aseba_lexer::{end_of, lex};
use aseba_parser::{SyntaxError, parse};
use aseba_tree::{Expr, Form, Pos, Project, Source, StmtForm, Token};
use std::alloc::{AllocError, Global};
use std::test::Fail;

/// A project with an event `ping` without cells and an event `pair` of two.
pub fn project(alloc: Global) -> Result<Project, ProjectError> {
    let text = b"node node\ncode 2048\nvars 256\nstack 32\nid 1\nevent ping 0\nevent pair 2\n";
    read_project(alloc, text.as_slice())
}

/// `tree`, or the place and kind of the fault.
fn answer(
    alloc: Global,
    tokens: &[Token],
    end: Pos,
    project: &Project,
) -> Result<String, AllocError> {
    match parse(alloc, tokens, end, project) {
        Ok(_) => String::from_str(alloc, "tree"),
        Err(SyntaxError::Syntax { at }) => {
            let line = at.line;
            let col = at.col;
            format!(in alloc; "{line}:{col} Syntax")
        }
        Err(SyntaxError::TooDeep { at }) => {
            let line = at.line;
            let col = at.col;
            format!(in alloc; "{line}:{col} TooDeep")
        }
        Err(SyntaxError::Mem) => String::from_str(alloc, "out of memory"),
    }
}

/// The answer for a text.
fn told(alloc: Global, text: &[u8]) -> Result<String, AllocError> {
    if text.len() >= 4000 {
        return String::from_str(alloc, "long");
    }
    match (lex(alloc, text), project(alloc)) {
        (Ok(tokens), Ok(project)) => answer(alloc, tokens.as_slice(), end_of(text), &project),
        _ => String::from_str(alloc, "no tokens"),
    }
}

#[test]
fn places_of_faults(rt: HostRuntime) -> Result<(), Fail> {
    let rows = [
        ("emit ping 1", "1:11 Syntax"),
        ("emit pair", "1:10 Syntax"),
        ("emit x 1", "1:8 Syntax"),
        ("onevent end", "1:9 Syntax"),
        ("x = (1", "1:7 Syntax"),
        ("var x\nx = 1\nvar y", "3:1 Syntax"),
        ("var x = ", "1:9 Syntax"),
        ("", "tree"),
    ];
    for (text, want) in rows {
        let got = told(rt.alloc(), text.as_bytes())?;
        assert_eq!(rt; got.as_str(), want, "{text}");
    }
    Ok(())
}

/// For each beginning of the tokens whether it is a program, `t`, or ends too early, `e`.
fn marks(alloc: Global, tokens: &[Token], project: &Project) -> Result<String, AllocError> {
    let end = Pos { line: 9, col: 9 };
    let mut marks = String::new(alloc);
    for k in 0..=tokens.len() {
        let mark = match parse(alloc, &tokens[..k], end, project) {
            Ok(_) => 't',
            Err(SyntaxError::Syntax { at }) if at == end => 'e',
            Err(_) => 'x',
        };
        marks.push(mark)?;
    }
    Ok(marks)
}

fn marked(alloc: Global, text: &[u8]) -> Result<String, AllocError> {
    if text.len() >= 4000 {
        return String::from_str(alloc, "long");
    }
    match (lex(alloc, text), project(alloc)) {
        (Ok(tokens), Ok(project)) => marks(alloc, tokens.as_slice(), &project),
        _ => String::from_str(alloc, "no tokens"),
    }
}

#[test]
fn rows_cut_after_each_token(rt: HostRuntime) -> Result<(), Fail> {
    let rows = [
        ("var a[2] = 1", "teteetet"),
        ("onevent ping x = 1", "teteet"),
        ("sub s return", "tett"),
        ("a[1:2] += 3 b++", "teeeeeeetet"),
        (
            "if a then b-- elseif c then else return end",
            "teeeeeeeeeet",
        ),
        ("when a do end", "teeet"),
        ("while not a do end", "teeeet"),
        ("for i in 0:3 step 2 do end", "teeeeeeeeet"),
        ("emit ping emit pair [1, -2]", "teteeeeeeet"),
        ("callsub s", "tet"),
        ("call math.copy(a, b[c])", "teeeeeeeeet"),
        ("call f()", "teeet"),
        ("x = (1 + 2) * abs 3 and y", "teeeeeeteetet"),
    ];
    for (text, want) in rows {
        let got = marked(rt.alloc(), text.as_bytes())?;
        assert_eq!(rt; got.as_str(), want, "{text}");
    }
    Ok(())
}

/// The answer for a text with so many openings and closings.
fn nested(
    alloc: Global,
    count: u32,
    (before, open, inside, close): (&str, &str, &str, &str),
) -> Result<String, AllocError> {
    let mut text = String::from_str(alloc, before)?;
    for _ in 0..count {
        text.push_str(open)?;
    }
    text.push_str(inside)?;
    for _ in 0..count {
        text.push_str(close)?;
    }
    told(alloc, text.as_bytes())
}

#[test]
fn nesting(rt: HostRuntime) -> Result<(), Fail> {
    let rows = [
        (64, ("x = ", "(", "1", ")"), "tree"),
        (65, ("x = ", "(", "1", ")"), "1:69 TooDeep"),
        (65, ("x = ", "[", "1", "]"), "1:69 TooDeep"),
        (65, ("x = ", "~", "1", ""), "1:69 TooDeep"),
        (65, ("x = ", "a[", "1", "]"), "1:134 TooDeep"),
        (64, ("", "if x then ", "", "end "), "tree"),
        (65, ("", "if x then ", "", "end "), "1:641 TooDeep"),
        (63, ("if x then ", "elseif x then ", "end", ""), "tree"),
        (
            64,
            ("if x then ", "elseif x then ", "end", ""),
            "1:893 TooDeep",
        ),
    ];
    for (count, parts, want) in rows {
        let got = nested(rt.alloc(), count, parts)?;
        assert_eq!(rt; got.as_str(), want);
    }
    Ok(())
}

/// An expression with its operators in front, each with its place, and behind the place where its left side begins.
fn shown(alloc: Global, expr: &Expr) -> Result<String, AllocError> {
    let first = expr.first.col;
    let at = expr.at.col;
    match &expr.form {
        Form::Number(value) => format!(in alloc; "{value}"),
        Form::Whole(_) => format!(in alloc; "name{at}"),
        Form::One(op, operand) => {
            let operand = shown(alloc, operand.get())?;
            format!(in alloc; "({op:?}{at} {operand})")
        }
        Form::Two(op, left, right) => {
            let left = shown(alloc, left.get())?;
            let right = shown(alloc, right.get())?;
            format!(in alloc; "({first}:{op:?}{at} {left} {right})")
        }
        _ => String::from_str(alloc, "other"),
    }
}

/// The value of the assignment that a source begins with.
fn value(alloc: Global, source: &Source) -> Result<String, AllocError> {
    match source.init.as_slice() {
        [stmt, ..] => match &stmt.form {
            StmtForm::Set(_, value) => shown(alloc, value.get()),
            _ => String::from_str(alloc, "no assignment"),
        },
        [] => String::from_str(alloc, "nothing"),
    }
}

fn assigned(alloc: Global, text: &[u8]) -> Result<String, AllocError> {
    if text.len() >= 4000 {
        return String::from_str(alloc, "long");
    }
    match (lex(alloc, text), project(alloc)) {
        (Ok(tokens), Ok(project)) => {
            match parse(alloc, tokens.as_slice(), end_of(text), &project) {
                Ok(source) => value(alloc, &source),
                Err(_) => String::from_str(alloc, "no tree"),
            }
        }
        _ => String::from_str(alloc, "no tokens"),
    }
}

#[test]
fn levels_of_operators(rt: HostRuntime) -> Result<(), Fail> {
    let rows = [
        ("x = a - b - c", "(5:Sub11 (5:Sub7 name5 name9) name13)"),
        ("x = not a == 1", "(Not5 (9:Equal11 name9 1))"),
        ("x = -a * b", "(5:Mul8 (Minus5 name6) name10)"),
        ("x = (a + b) * c", "(5:Mul13 (5:Add8 name6 name10) name15)"),
        (
            "x = a or b and c << d",
            "(5:Or7 name5 (10:And12 name10 (16:Shl18 name16 name21)))",
        ),
    ];
    for (text, want) in rows {
        let got = assigned(rt.alloc(), text.as_bytes())?;
        assert_eq!(rt; got.as_str(), want, "{text}");
    }
    Ok(())
}

#[test]
fn errors_as_text(rt: HostRuntime) -> Result<(), Fail> {
    let alloc = rt.alloc();
    let at = Pos { line: 3, col: 7 };
    let error = SyntaxError::TooDeep { at };
    let text = format!(in alloc; "{error}")?;
    assert_eq!(rt; text.as_str(), "3:7: this is nested too deep");
    Ok(())
}
