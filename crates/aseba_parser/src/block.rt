//! Statements, and those that hold others.
ghost use Rattle.std.specs.Prelude.{◌≡◌, ◌≤◌, ◌<◌, [], ◌∷◌, ◌++◌, length, map, IfOk};
ghost use Rattle.aseba_tree.specs.Code as code;
ghost use Rattle.aseba_tree.specs.View.{place_view, stmt_view, stmts_view, project_view};
ghost use Rattle.aseba_tree.specs.Spells as spells;
ghost use Rattle.aseba_parser.specs.Reading as reading;
ghost use Rattle.aseba_parser.specs.Reads.{Answers, begins_with, fronted, block_at, tested_view, counted_view};

use crate::counted::{Counted, head};
use crate::expr::expr;
use crate::fault::{Fault, Parsed};
use crate::lists::with;
use crate::operators::ANY_LEVEL;
use crate::simple::{call, callsub, emit, give_back, set};
use crate::tokens::{entered, first, is_key, key};
use aseba_tree::{Expr, Key, Pos, Project, Stmt, StmtForm, Token, TokenKind};
use aseba_words::{List, Mem};
use sqlite_items::Boxed;
use std::alloc::Global;

/// A test with the statements of its branch.
#[derive(Drop)]
pub struct Tested {
    pub test: Expr,
    pub body: List<Stmt>,
}

fn if_then(alloc: Global, at: Pos, branch: Tested, other: List<Stmt>) -> Result<Stmt, Mem>
    ensures { IfOk result (λ s. stmt_view s ≡ code.stmt at.line (place_view at) (code.if_then (tested_view branch).test (tested_view branch).body (stmts_view other))) }
{
    let Tested { test, body } = branch;
    let test = Boxed::new(alloc, test)?;
    Ok(Stmt {
        line: at.line,
        at,
        form: StmtForm::If(test, body, other),
    })
}

fn when_do(alloc: Global, at: Pos, branch: Tested) -> Result<Stmt, Mem>
    ensures { IfOk result (λ s. stmt_view s ≡ code.stmt at.line (place_view at) (code.when_do (tested_view branch).test (tested_view branch).body)) }
{
    let Tested { test, body } = branch;
    let test = Boxed::new(alloc, test)?;
    Ok(Stmt {
        line: at.line,
        at,
        form: StmtForm::When(test, body),
    })
}

fn while_do(alloc: Global, at: Pos, branch: Tested) -> Result<Stmt, Mem>
    ensures { IfOk result (λ s. stmt_view s ≡ code.stmt at.line (place_view at) (code.while_do (tested_view branch).test (tested_view branch).body)) }
{
    let Tested { test, body } = branch;
    let test = Boxed::new(alloc, test)?;
    Ok(Stmt {
        line: at.line,
        at,
        form: StmtForm::While(test, body),
    })
}

fn for_do(alloc: Global, line: u32, counted: Counted<'_>, body: List<Stmt>) -> Result<Stmt, Mem>
    ensures { IfOk result (λ s. stmt_view s ≡ code.stmt line (spells.place (counted_view counted.entry).variable) (code.for_do (counted_view counted.entry).head (stmts_view body))) }
{
    let Counted { variable, head } = counted;
    let head = Boxed::new(alloc, head)?;
    Ok(Stmt {
        line,
        at: variable.at,
        form: StmtForm::For(head, body),
    })
}

/// An `if` that is alone in a list, as an `elseif` makes it.
fn nested_if(alloc: Global, at: Pos, branch: Tested, other: List<Stmt>) -> Result<List<Stmt>, Mem>
    ensures { IfOk result (λ list. map stmt_view list ≡ code.stmt at.line (place_view at) (code.if_then (tested_view branch).test (tested_view branch).body (stmts_view other)) ∷ []) }
{
    let stmt = if_then(alloc, at, branch, other)?;
    with(List::new(alloc), stmt)
}

/// Whether a token begins a statement.
fn begins_stmt(kind: &TokenKind) -> bool
    ensures { result ≡ reading.begins_stmt kind.now }
{
    match kind {
        TokenKind::Name(_)
        | TokenKind::Key(Key::If)
        | TokenKind::Key(Key::When)
        | TokenKind::Key(Key::While)
        | TokenKind::Key(Key::For)
        | TokenKind::Key(Key::Emit)
        | TokenKind::Key(Key::CallSub)
        | TokenKind::Key(Key::Call)
        | TokenKind::Key(Key::Return) => true,
        _ => false,
    }
}

/// Whether the first token begins a statement.
fn begins_with_stmt(tokens: &[Token]) -> bool
    ensures { result ≡ begins_with reading.begins_stmt tokens.now }
{
    match tokens.split_first() {
        Some((token, _)) => begins_stmt(&token.kind),
        None => false,
    }
}

/// As many statements as there are at the front.
#[cycle(block)]
pub fn stmts<'t>(
    alloc: Global,
    project: &Project,
    depth: u8,
    tokens: &'t [Token],
) -> Parsed<'t, List<Stmt>>
    ensures read { let p = project_view project.now in Answers stmts_view (reading.stmts_read p depth (reading.block_of p depth) tokens.now) result }
    ensures shorter { IfOk result (λ found. length found.1.now ≤ length tokens.now) }
{
    let mut done = List::new(alloc);
    let mut rest = tokens;
    while begins_with_stmt(rest) {
        let (grown, behind) = another(alloc, project, depth, done, rest)?;
        done = grown;
        rest = behind;
    }
    Ok((done, rest))
}

/// The statements with the one at the front.
#[cycle(block)]
fn another<'t>(
    alloc: Global,
    project: &Project,
    depth: u8,
    done: List<Stmt>,
    tokens: &'t [Token],
) -> Parsed<'t, List<Stmt>>
    ensures read { let p = project_view project.now in
        Answers (map stmt_view)
        (reading.next (reading.stmt_read p depth (reading.block_of p depth) tokens.now) (λ s behind. reading.taken (map stmt_view done ++ s ∷ []) behind))
        result }
    ensures shorter { IfOk result (λ found. length found.1.now < length tokens.now) }
{
    let (found, rest) = stmt(alloc, project, depth, tokens)?;
    Ok((with(done, found)?, rest))
}

/// The statement at the front.
#[cycle(block)]
fn stmt<'t>(alloc: Global, project: &Project, depth: u8, tokens: &'t [Token]) -> Parsed<'t, Stmt>
    ensures read { let p = project_view project.now in Answers stmt_view (reading.stmt_read p depth (reading.block_of p depth) tokens.now) result }
    ensures shorter { IfOk result (λ found. length found.1.now < length tokens.now) }
{
    let (token, _) = first(tokens)?;
    match &token.kind {
        TokenKind::Name(_) => set(alloc, depth, tokens),
        TokenKind::Key(Key::If) => if_stmt(alloc, project, depth, tokens),
        TokenKind::Key(Key::When) => when_stmt(alloc, project, depth, tokens),
        TokenKind::Key(Key::While) => while_stmt(alloc, project, depth, tokens),
        TokenKind::Key(Key::For) => for_stmt(alloc, project, depth, tokens),
        TokenKind::Key(Key::Emit) => emit(alloc, project, depth, tokens),
        TokenKind::Key(Key::CallSub) => callsub(alloc, tokens),
        TokenKind::Key(Key::Call) => call(alloc, depth, tokens),
        TokenKind::Key(Key::Return) => give_back(tokens),
        _ => Err(Fault::Syntax(tokens)),
    }
}

/// A word, and the statements behind it.
#[cycle(block)]
fn body<'t>(
    alloc: Global,
    project: &Project,
    inside: u8,
    word: Key,
    tokens: &'t [Token],
) -> Parsed<'t, List<Stmt>>
    ensures read { let p = project_view project.now in
        Answers stmts_view (reading.next (reading.expected (reading.is_key word) tokens.now) (λ do_word inner. reading.stmts_read p inside (reading.block_of p inside) inner)) result }
    ensures shorter { IfOk result (λ found. length found.1.now < length tokens.now) }
{
    let (_, inner) = key(word, tokens)?;
    stmts(alloc, project, inside, inner)
}

/// A test, the word behind it and the statements of its branch.
#[cycle(block)]
fn branch<'t>(
    alloc: Global,
    project: &Project,
    inside: u8,
    word: Key,
    tokens: &'t [Token],
) -> Parsed<'t, Tested>
    ensures read { Answers tested_view (reading.tested_read (block_at (project_view project.now) inside) word tokens.now) result }
    ensures shorter { IfOk result (λ found. length found.1.now < length tokens.now) }
{
    let (test, after) = expr(alloc, inside, ANY_LEVEL, tokens)?;
    let (body, behind) = body(alloc, project, inside, word, after)?;
    Ok((Tested { test, body }, behind))
}

/// An `if` up to its `end`.
#[cycle(block)]
fn if_stmt<'t>(alloc: Global, project: &Project, depth: u8, tokens: &'t [Token]) -> Parsed<'t, Stmt>
    ensures read { Answers stmt_view (fronted (reading.if_read (reading.block_of (project_view project.now) depth)) tokens.now) result }
    ensures shorter { IfOk result (λ found. length found.1.now < length tokens.now) }
{
    let opening = entered(depth, tokens)?;
    let inside = opening.inside;
    let (tested, after) = branch(alloc, project, inside, Key::Then, opening.rest)?;
    let (other, last) = other(alloc, project, inside, after)?;
    let (_, behind) = key(Key::End, last)?;
    Ok((if_then(alloc, opening.word.at, tested, other)?, behind))
}

/// A `when` up to its `end`.
#[cycle(block)]
fn when_stmt<'t>(
    alloc: Global,
    project: &Project,
    depth: u8,
    tokens: &'t [Token],
) -> Parsed<'t, Stmt>
    ensures read { Answers stmt_view (fronted (reading.when_read (reading.block_of (project_view project.now) depth)) tokens.now) result }
    ensures shorter { IfOk result (λ found. length found.1.now < length tokens.now) }
{
    let opening = entered(depth, tokens)?;
    let (tested, last) = branch(alloc, project, opening.inside, Key::Do, opening.rest)?;
    let (_, behind) = key(Key::End, last)?;
    Ok((when_do(alloc, opening.word.at, tested)?, behind))
}

/// A `while` up to its `end`.
#[cycle(block)]
fn while_stmt<'t>(
    alloc: Global,
    project: &Project,
    depth: u8,
    tokens: &'t [Token],
) -> Parsed<'t, Stmt>
    ensures read { Answers stmt_view (fronted (reading.while_read (reading.block_of (project_view project.now) depth)) tokens.now) result }
    ensures shorter { IfOk result (λ found. length found.1.now < length tokens.now) }
{
    let opening = entered(depth, tokens)?;
    let (tested, last) = branch(alloc, project, opening.inside, Key::Do, opening.rest)?;
    let (_, behind) = key(Key::End, last)?;
    Ok((while_do(alloc, opening.word.at, tested)?, behind))
}

/// A `for` up to its `end`.
#[cycle(block)]
fn for_stmt<'t>(
    alloc: Global,
    project: &Project,
    depth: u8,
    tokens: &'t [Token],
) -> Parsed<'t, Stmt>
    ensures read { Answers stmt_view (fronted (reading.for_read (reading.block_of (project_view project.now) depth)) tokens.now) result }
    ensures shorter { IfOk result (λ found. length found.1.now < length tokens.now) }
{
    let opening = entered(depth, tokens)?;
    let inside = opening.inside;
    let (counted, after) = head(alloc, inside, opening.rest)?;
    let (body, last) = body(alloc, project, inside, Key::Do, after)?;
    let (_, behind) = key(Key::End, last)?;
    Ok((for_do(alloc, opening.word.at.line, counted, body)?, behind))
}

/// What stands between the first branch of an `if` and its `end`.
#[cycle(block)]
fn other<'t>(
    alloc: Global,
    project: &Project,
    depth: u8,
    tokens: &'t [Token],
) -> Parsed<'t, List<Stmt>>
    ensures read { let p = project_view project.now in Answers stmts_view (reading.other_read p depth (reading.block_of p depth) tokens.now) result }
    ensures shorter { IfOk result (λ found. length found.1.now ≤ length tokens.now) }
{
    match tokens.split_first() {
        Some((token, rest)) if is_key(Key::Else, &token.kind) => {
            stmts(alloc, project, depth, rest)
        }
        Some((token, _)) if is_key(Key::ElseIf, &token.kind) => {
            elseif(alloc, project, depth, tokens)
        }
        _ => Ok((List::new(alloc), tokens)),
    }
}

/// An `elseif` up to the `end` of its `if`: an `if` of its own, a level deeper.
#[cycle(block)]
fn elseif<'t>(
    alloc: Global,
    project: &Project,
    depth: u8,
    tokens: &'t [Token],
) -> Parsed<'t, List<Stmt>>
    ensures read { Answers stmts_view (fronted (reading.elseif_read (reading.block_of (project_view project.now) depth)) tokens.now) result }
    ensures shorter { IfOk result (λ found. length found.1.now < length tokens.now) }
{
    let opening = entered(depth, tokens)?;
    let inside = opening.inside;
    let (tested, after) = branch(alloc, project, inside, Key::Then, opening.rest)?;
    let (more, behind) = other(alloc, project, inside, after)?;
    Ok((nested_if(alloc, opening.word.at, tested, more)?, behind))
}
