//! Handlers, subroutines and whole programs.
ghost use Rattle.std.specs.Prelude.{◌≡◌, ◌≤◌, ◌<◌, [], ◌∷◌, ◌++◌, length, map, IfOk};
ghost use Rattle.aseba_tree.specs.View.{handler_view, source_view, project_view};
ghost use Rattle.aseba_parser.specs.Reading as reading;
ghost use Rattle.aseba_parser.specs.Reads.{Answers, begins_with};

use crate::block::stmts;
use crate::decl::decls;
use crate::fault::{Fault, Parsed};
use crate::lists::with;
use crate::tokens::{first, is_key, name};
use aseba_tree::{Handler, Key, Project, Source, Token, TokenKind};
use aseba_words::List;
use std::alloc::Global;

/// Whether a token begins a handler or a subroutine.
fn begins_part(kind: &TokenKind) -> bool
    ensures { result ≡ reading.begins_part kind.now }
{
    match kind {
        TokenKind::Key(Key::OnEvent) | TokenKind::Key(Key::Sub) => true,
        _ => false,
    }
}

/// Whether the first token begins a handler or a subroutine.
fn begins_with_part(tokens: &[Token]) -> bool
    ensures { result ≡ begins_with reading.begins_part tokens.now }
{
    match tokens.split_first() {
        Some((token, _)) => begins_part(&token.kind),
        None => false,
    }
}

/// As many handlers and subroutines as there are at the front.
fn parts<'t>(
    alloc: Global,
    project: &Project,
    depth: u8,
    tokens: &'t [Token],
) -> Parsed<'t, List<Handler>>
    ensures read { Answers (map handler_view) (reading.all_of reading.begins_part (reading.part_of (project_view project.now) depth) tokens.now) result }
    ensures shorter { IfOk result (λ found. length found.1.now ≤ length tokens.now) }
{
    let mut done = List::new(alloc);
    let mut rest = tokens;
    while begins_with_part(rest) {
        let (grown, behind) = another(alloc, project, depth, done, rest)?;
        done = grown;
        rest = behind;
    }
    Ok((done, rest))
}

/// The handlers and subroutines with the one at the front.
fn another<'t>(
    alloc: Global,
    project: &Project,
    depth: u8,
    done: List<Handler>,
    tokens: &'t [Token],
) -> Parsed<'t, List<Handler>>
    ensures read { Answers (map handler_view)
        (reading.next (reading.part_of (project_view project.now) depth tokens.now) (λ h behind. reading.taken (map handler_view done ++ h ∷ []) behind))
        result }
    ensures shorter { IfOk result (λ found. length found.1.now < length tokens.now) }
{
    let (found, rest) = part(alloc, project, depth, tokens)?;
    Ok((with(done, found)?, rest))
}

/// A handler or a subroutine behind its first word, whichever that is.
fn part<'t>(alloc: Global, project: &Project, depth: u8, tokens: &'t [Token]) -> Parsed<'t, Handler>
    ensures read { Answers handler_view (reading.part_of (project_view project.now) depth tokens.now) result }
    ensures shorter { IfOk result (λ found. length found.1.now < length tokens.now) }
{
    let (word, rest) = first(tokens)?;
    let (named, after) = name(rest)?;
    let (body, behind) = stmts(alloc, project, depth, after)?;
    let name = named.name.copy(alloc)?;
    let handler = Handler {
        line: word.at.line,
        at: named.token.at,
        is_sub: is_key(Key::Sub, &word.kind),
        name,
        body,
    };
    Ok((handler, behind))
}

/// A whole program, with nothing behind it.
pub fn program<'t>(
    alloc: Global,
    project: &Project,
    depth: u8,
    tokens: &'t [Token],
) -> Parsed<'t, Source>
    ensures { Answers source_view (reading.program_read (project_view project.now) depth tokens.now) result }
{
    let (vars, after_vars) = decls(alloc, depth, tokens)?;
    let (init, after_init) = stmts(alloc, project, depth, after_vars)?;
    let (parts, behind) = parts(alloc, project, depth, after_init)?;
    match behind.split_first() {
        None => Ok((Source { vars, init, parts }, behind)),
        Some(_) => Err(Fault::Syntax(behind)),
    }
}
