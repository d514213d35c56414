ghost use Rattle.std.specs.Prelude.{◌<◌, length, IfOk, IfErr};
ghost use Rattle.aseba_tree.specs.Shape.{IsTree};
ghost use Rattle.aseba_tree.specs.View.{project_view, source_view};
ghost use Rattle.aseba_compile.specs.Reading.{IsOnlyTree, IsTextRefused};

use crate::refusal::Refusal;
use aseba_lexer::{end_of, lex};
use aseba_parser::parse;
use aseba_tree::{Project, Source};
use std::alloc::Global;

/// The tree that a text spells in a project, which is its only one, and can be checked.
pub fn read(alloc: Global, project: &Project, text: &[u8]) -> Result<Source, Refusal>
    requires { length text.now < 4294967295 }
    ensures tree { IfOk result (λ source. IsOnlyTree (project_view project.now) text.now (source_view source)) }
    ensures shape { IfOk result (λ source. IsTree (source_view source)) }
    ensures fault { IfErr result (IsTextRefused (project_view project.now) text.now) }
{
    let tokens = lex(alloc, text)?;
    let source = parse(alloc, tokens.as_slice(), end_of(text), project)?;
    Ok(source)
}
