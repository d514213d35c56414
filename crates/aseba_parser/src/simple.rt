//! Statements that hold no others.
ghost use Rattle.std.specs.Prelude.{◌≡◌, ◌≤◌, ◌<◌, length, option_map, IfOk};
ghost use Rattle.aseba_tree.specs.Code as code;
ghost use Rattle.aseba_tree.specs.Spells as spells;
ghost use Rattle.aseba_tree.specs.View.{place_view, expr_view, exprs_view, target_view, stmt_view, project_view};
ghost use Rattle.aseba_parser.specs.Reading as reading;
ghost use Rattle.aseba_parser.specs.Reads.{Answers, fronted};

use crate::events::takes_argument;
use crate::expr::{expr, list, target};
use crate::fault::{Fault, Parsed};
use crate::operators::{ANY_LEVEL, changing, stepping};
use crate::tokens::{first, is_sign, name, opened, sign};
use aseba_tree::{Expr, Pos, Project, Sign, Stmt, StmtForm, Target, Token};
use aseba_words::{Binary, List, Mem, Name};
use sqlite_items::Boxed;
use std::alloc::Global;

fn assign(alloc: Global, target: Target, at: Pos, value: Expr) -> Result<Stmt, Mem>
    ensures { IfOk result (λ s. stmt_view s ≡ code.stmt target.at.line (place_view at) (code.assign (target_view target) (expr_view value))) }
{
    let line = target.at.line;
    let target = Boxed::new(alloc, target)?;
    let value = Boxed::new(alloc, value)?;
    Ok(Stmt {
        line,
        at,
        form: StmtForm::Set(target, value),
    })
}

fn change(alloc: Global, target: Target, op: Binary, at: Pos, value: Expr) -> Result<Stmt, Mem>
    ensures { IfOk result (λ s. stmt_view s ≡ code.stmt target.at.line (place_view at) (code.change (target_view target) op (expr_view value))) }
{
    let line = target.at.line;
    let target = Boxed::new(alloc, target)?;
    let value = Boxed::new(alloc, value)?;
    Ok(Stmt {
        line,
        at,
        form: StmtForm::Change(target, op, value),
    })
}

fn bump(alloc: Global, target: Target, op: Binary, at: Pos) -> Result<Stmt, Mem>
    ensures { IfOk result (λ s. stmt_view s ≡ code.stmt target.at.line (place_view at) (code.bump (target_view target) op)) }
{
    let line = target.at.line;
    let target = Boxed::new(alloc, target)?;
    Ok(Stmt {
        line,
        at,
        form: StmtForm::Step(target, op),
    })
}

/// A statement that begins with its target.
pub fn set<'t>(alloc: Global, depth: u8, tokens: &'t [Token]) -> Parsed<'t, Stmt>
    ensures read { Answers stmt_view (reading.set_read depth tokens.now) result }
    ensures shorter { IfOk result (λ found. length found.1.now < length tokens.now) }
{
    let (target, after) = target(alloc, depth, tokens)?;
    set_end(alloc, depth, target, after)
}

/// What stands behind a statement's target.
fn set_end<'t>(alloc: Global, depth: u8, target: Target, tokens: &'t [Token]) -> Parsed<'t, Stmt>
    ensures read { Answers stmt_view (reading.set_end depth (target_view target) tokens.now) result }
    ensures shorter { IfOk result (λ found. length found.1.now < length tokens.now) }
{
    match tokens.split_first() {
        Some((token, rest)) => match stepping(&token.kind) {
            Some(op) => stepped(alloc, target, op, token.at, rest),
            None => match changing(&token.kind) {
                Some(op) => changed(alloc, depth, target, op, token.at, rest),
                None if is_sign(Sign::Assign, &token.kind) => {
                    assigned(alloc, depth, target, token.at, rest)
                }
                None => Err(Fault::Syntax(tokens)),
            },
        },
        None => Err(Fault::Syntax(tokens)),
    }
}

/// A change of a target by 1, with the tokens behind its sign, which is at that place.
fn stepped<'t>(
    alloc: Global,
    target: Target,
    op: Binary,
    at: Pos,
    rest: &'t [Token],
) -> Parsed<'t, Stmt>
    ensures read { Answers stmt_view (reading.taken (code.stmt target.at.line (place_view at) (code.bump (target_view target) op)) rest.now) result }
    ensures rest { IfOk result (λ found. length found.1.now ≤ length rest.now) }
{
    Ok((bump(alloc, target, op, at)?, rest))
}

/// The expression by which a target is changed, where the sign before it is at that place.
fn changed<'t>(
    alloc: Global,
    depth: u8,
    target: Target,
    op: Binary,
    at: Pos,
    tokens: &'t [Token],
) -> Parsed<'t, Stmt>
    ensures read { Answers stmt_view
        (reading.next (reading.expr_read depth spells.any_level tokens.now)
        (λ e behind. reading.taken (code.stmt target.at.line (place_view at) (code.change (target_view target) op e)) behind))
        result }
    ensures shorter { IfOk result (λ found. length found.1.now < length tokens.now) }
{
    let (value, behind) = expr(alloc, depth, ANY_LEVEL, tokens)?;
    Ok((change(alloc, target, op, at, value)?, behind))
}

/// The expression that a target gets, where the sign before it is at that place.
fn assigned<'t>(
    alloc: Global,
    depth: u8,
    target: Target,
    at: Pos,
    tokens: &'t [Token],
) -> Parsed<'t, Stmt>
    ensures read { Answers stmt_view
        (reading.next (reading.expr_read depth spells.any_level tokens.now)
        (λ e behind. reading.taken (code.stmt target.at.line (place_view at) (code.assign (target_view target) e)) behind))
        result }
    ensures shorter { IfOk result (λ found. length found.1.now < length tokens.now) }
{
    let (value, behind) = expr(alloc, depth, ANY_LEVEL, tokens)?;
    Ok((assign(alloc, target, at, value)?, behind))
}

fn emission(
    alloc: Global,
    line: u32,
    at: Pos,
    name: &Name,
    argument: Option<Expr>,
) -> Result<Stmt, Mem>
    ensures { IfOk result (λ s. stmt_view s ≡ code.stmt line (place_view at) (code.emit name.now (option_map expr_view argument))) }
{
    let argument = match argument {
        Some(value) => Some(Boxed::new(alloc, value)?),
        None => None,
    };
    let name = name.copy(alloc)?;
    Ok(Stmt {
        line,
        at,
        form: StmtForm::Emit(name, argument),
    })
}

/// An `emit`. Its event has an expression where the project gives it cells.
pub fn emit<'t>(
    alloc: Global,
    project: &Project,
    depth: u8,
    tokens: &'t [Token],
) -> Parsed<'t, Stmt>
    ensures read { Answers stmt_view (fronted (reading.emit_read (project_view project.now) depth) tokens.now) result }
    ensures shorter { IfOk result (λ found. length found.1.now < length tokens.now) }
{
    let (word, rest) = first(tokens)?;
    let (event, after) = name(rest)?;
    let (given, behind) = argument(alloc, depth, takes_argument(project, event.name), after)?;
    let stmt = emission(alloc, word.at.line, event.token.at, event.name, given)?;
    Ok((stmt, behind))
}

/// The expression of an event that takes one.
fn argument<'t>(
    alloc: Global,
    depth: u8,
    takes: bool,
    tokens: &'t [Token],
) -> Parsed<'t, Option<Expr>>
    ensures read { Answers (option_map expr_view) (reading.argument_read depth takes tokens.now) result }
    ensures shorter { IfOk result (λ found. length found.1.now ≤ length tokens.now) }
{
    if takes {
        let (value, behind) = expr(alloc, depth, ANY_LEVEL, tokens)?;
        Ok((Some(value), behind))
    } else {
        Ok((None, tokens))
    }
}

/// A `callsub`.
pub fn callsub<'t>(alloc: Global, tokens: &'t [Token]) -> Parsed<'t, Stmt>
    ensures read { Answers stmt_view (fronted reading.callsub_read tokens.now) result }
    ensures shorter { IfOk result (λ found. length found.1.now < length tokens.now) }
{
    let (word, rest) = first(tokens)?;
    let (called, behind) = name(rest)?;
    let stmt = Stmt {
        line: word.at.line,
        at: called.token.at,
        form: StmtForm::CallSub(called.name.copy(alloc)?),
    };
    Ok((stmt, behind))
}

/// A `call`.
pub fn call<'t>(alloc: Global, depth: u8, tokens: &'t [Token]) -> Parsed<'t, Stmt>
    ensures read { Answers stmt_view (fronted (reading.call_read (reading.inside_of depth)) tokens.now) result }
    ensures shorter { IfOk result (λ found. length found.1.now < length tokens.now) }
{
    let (word, rest) = first(tokens)?;
    let (called, after) = name(rest)?;
    let (given, behind) = enclosed(alloc, depth, after)?;
    let stmt = Stmt {
        line: word.at.line,
        at: called.token.at,
        form: StmtForm::Call(called.name.copy(alloc)?, given),
    };
    Ok((stmt, behind))
}

/// The arguments of a `call` with their parentheses.
fn enclosed<'t>(alloc: Global, depth: u8, tokens: &'t [Token]) -> Parsed<'t, List<Expr>>
    ensures read { Answers exprs_view (reading.enclosed_read (reading.inside_of depth) tokens.now) result }
    ensures shorter { IfOk result (λ found. length found.1.now < length tokens.now) }
{
    match tokens.split_first() {
        Some((token, rest)) if is_sign(Sign::OpenParen, &token.kind) => {
            let inside = opened(depth, tokens)?;
            arguments(alloc, inside, rest)
        }
        _ => Err(Fault::Syntax(tokens)),
    }
}

/// The arguments of a `call` up to their closing parenthesis.
fn arguments<'t>(alloc: Global, inside: u8, tokens: &'t [Token]) -> Parsed<'t, List<Expr>>
    ensures read { Answers exprs_view (reading.arguments_read (reading.expr_read inside) tokens.now) result }
    ensures shorter { IfOk result (λ found. length found.1.now < length tokens.now) }
{
    let (token, rest) = first(tokens)?;
    if is_sign(Sign::CloseParen, &token.kind) {
        return Ok((List::new(alloc), rest));
    }
    let (given, after) = list(alloc, inside, tokens)?;
    let (_, behind) = sign(Sign::CloseParen, after)?;
    Ok((given, behind))
}

/// A `return`.
pub fn give_back<'t>(tokens: &'t [Token]) -> Parsed<'t, Stmt>
    ensures read { Answers stmt_view (fronted (λ t rest. reading.taken (code.stmt t.at.line (spells.place t) code.return) rest) tokens.now) result }
    ensures shorter { IfOk result (λ found. length found.1.now < length tokens.now) }
{
    let (word, rest) = first(tokens)?;
    let stmt = Stmt {
        line: word.at.line,
        at: word.at,
        form: StmtForm::Return,
    };
    Ok((stmt, rest))
}
