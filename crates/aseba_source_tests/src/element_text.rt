//! Element forms as texts. A text has a line for each statement, which begins with the line of the
//! source; `@34` is a cell, and `@34:4[1]` one of the four cells from 34 on, by its index.
use aseba_tree::{Core, CoreExpr, CoreForm, CorePart, CoreStmt, CoreTarget};
use aseba_words::List;
use std::alloc::{AllocError, Global};

/// The text of a core.
pub fn core_text(alloc: Global, core: &Core) -> Result<String, AllocError> {
    let mut text = String::new(alloc);
    add_body(&mut text, &core.init)?;
    for part in core.parts.as_slice() {
        add_part(&mut text, part)?;
    }
    Ok(text)
}

fn add_part(text: &mut String, part: &CorePart) -> Result<(), AllocError> {
    add_opening(text, part.line, part.event)?;
    add_body(text, &part.body)
}

fn add_opening(text: &mut String, line: u32, event: Option<u16>) -> Result<(), AllocError> {
    match event {
        Some(event) => writeln!(text, "{line} onevent {event}"),
        None => writeln!(text, "{line} sub"),
    }
}

#[cycle(text)]
fn add_body(text: &mut String, stmts: &List<CoreStmt>) -> Result<(), AllocError> {
    for stmt in stmts.as_slice() {
        add_stmt(text, stmt)?;
    }
    Ok(())
}

#[cycle(text)]
fn add_stmt(text: &mut String, stmt: &CoreStmt) -> Result<(), AllocError> {
    add_form(text, stmt.line, &stmt.form)
}

#[cycle(text)]
fn add_form(text: &mut String, line: u32, form: &CoreForm) -> Result<(), AllocError> {
    match form {
        CoreForm::Store(target, value) => add_store(text, line, target.get(), value.get()),
        CoreForm::If(test, then, other) => {
            add_test(text, line, "if", test.get())?;
            add_body(text, then)?;
            text.push_str("else\n")?;
            add_body(text, other)?;
            text.push_str("end\n")
        }
        CoreForm::When(test, body) => {
            add_test(text, line, "when", test.get())?;
            add_body(text, body)?;
            text.push_str("end\n")
        }
        CoreForm::While(test, body) => {
            add_test(text, line, "while", test.get())?;
            add_body(text, body)?;
            text.push_str("end\n")
        }
        CoreForm::Emit(event, start, length) => {
            writeln!(text, "{line} emit {event} {start} {length}")
        }
        CoreForm::CallSub(part) => writeln!(text, "{line} callsub {part}"),
        CoreForm::Call(native, values) => add_call(text, line, *native, values.as_slice()),
        CoreForm::Return => writeln!(text, "{line} return"),
    }
}

fn add_test(text: &mut String, line: u32, word: &str, test: &CoreExpr) -> Result<(), AllocError> {
    write!(text, "{line} {word} ")?;
    add_expr(text, test)?;
    text.push_str("\n")
}

fn add_store(
    text: &mut String,
    line: u32,
    target: &CoreTarget,
    value: &CoreExpr,
) -> Result<(), AllocError> {
    write!(text, "{line} ")?;
    add_target(text, target)?;
    text.push_str(" = ")?;
    add_expr(text, value)?;
    text.push_str("\n")
}

fn add_target(text: &mut String, target: &CoreTarget) -> Result<(), AllocError> {
    match target {
        CoreTarget::Cell(cell) => write!(text, "@{cell}"),
        CoreTarget::Indirect(start, size, index) => {
            write!(text, "@{start}:{size}[")?;
            add_expr(text, index)?;
            text.push_str("]")
        }
    }
}

fn add_expr(text: &mut String, expr: &CoreExpr) -> Result<(), AllocError> {
    match expr {
        CoreExpr::Number(value) => write!(text, "{value}"),
        CoreExpr::Cell(cell) => write!(text, "@{cell}"),
        CoreExpr::Indirect(start, size, index) => {
            write!(text, "@{start}:{size}[")?;
            add_expr(text, index.get())?;
            text.push_str("]")
        }
        CoreExpr::One(op, operand) => {
            write!(text, "{op:?}(")?;
            add_expr(text, operand.get())?;
            text.push_str(")")
        }
        CoreExpr::Two(op, left, right) => {
            write!(text, "{op:?}(")?;
            add_expr(text, left.get())?;
            text.push_str(", ")?;
            add_expr(text, right.get())?;
            text.push_str(")")
        }
    }
}

fn add_call(text: &mut String, line: u32, native: u16, values: &[u16]) -> Result<(), AllocError> {
    write!(text, "{line} call {native}")?;
    for value in values {
        write!(text, " {value}")?;
    }
    text.push_str("\n")
}
