ghost use Rattle.std.specs.Prelude.{◌≡◌, ◌≤◌, ◌<◌, length, IfOk, IfErr};
ghost use Rattle.aseba_tree.specs.Shape.{source_count, IsTree};
ghost use Rattle.aseba_tree.specs.View.{source_view, project_view};
ghost use Rattle.aseba_parser.specs.Parsed as parsed;
ghost use Rattle.aseba_parser.specs.Parsed.{IsTreeOf, TellsFault, IsDecided};

use crate::error::SyntaxError;
use crate::fault::Fault;
use crate::program::program;
use aseba_tree::{Pos, Project, Source, Token};
use std::alloc::Global;

/// How many levels of blocks, brackets and prefix operators may be open at once.
const DEEPEST: u8 = 64;

/// The tree that tokens spell, with the place of each node, in time linear in the tokens. `end` is
/// the place after their text's last byte. The project tells which events an `emit` gives a value.
///
/// An expression grows to the left by a level for each operator, so a tree can be as deep as its
/// tokens are many: what walks or drops it needs the stack for that. A tree has at most a node for
/// each token, and can be checked where the tokens are fewer than 4,294,967,295.
pub fn parse(
    alloc: Global,
    tokens: &[Token],
    end: Pos,
    project: &Project,
) -> Result<Source, SyntaxError>
    ensures tree { IfOk result (λ source. IsTreeOf (project_view project.now) tokens.now (source_view source)) }
    ensures counted { IfOk result (λ source. source_count (source_view source) ≤ length tokens.now) }
    ensures shape { IfOk result (λ source. length tokens.now < 4294967295 → IsTree (source_view source)) }
    ensures fault { IfErr result (λ error. TellsFault (project_view project.now) tokens.now end error) }
    ensures decided { IsDecided (project_view project.now) tokens.now end }
{
    match program(alloc, project, DEEPEST, tokens) {
        Ok((source, _)) => Ok(source),
        Err(fault) => Err(error_of(fault, end)),
    }
}

/// The error that tells of a fault.
fn error_of(fault: Fault<'_>, end: Pos) -> SyntaxError
    ensures { result ≡ parsed.error_of end fault.entry }
{
    match fault {
        Fault::Syntax(rest) => SyntaxError::Syntax {
            at: first_place(rest, end),
        },
        Fault::TooDeep(rest) => SyntaxError::TooDeep {
            at: first_place(rest, end),
        },
        Fault::Mem => SyntaxError::Mem,
    }
}

/// The place of the first token, or the text's end where there is none.
fn first_place(tokens: &[Token], end: Pos) -> Pos
    ensures { result ≡ parsed.place_of end tokens.now }
{
    match tokens.split_first() {
        Some((token, _)) => token.at,
        None => end,
    }
}
