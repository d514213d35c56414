//! The head of a `for`.
ghost use Rattle.std.specs.Prelude.{◌≤◌, ◌<◌, length, option_map, IfOk};
ghost use Rattle.aseba_tree.specs.Code.{Project};
ghost use Rattle.aseba_tree.specs.View.{expr_view};
ghost use Rattle.aseba_parser.specs.Reading as reading;
ghost use Rattle.aseba_parser.specs.Reads.{Answers, block_at, counted_view};

use crate::expr::expr;
use crate::fault::Parsed;
use crate::operators::ANY_LEVEL;
use crate::tokens::{is_key, key, name, sign};
use aseba_tree::{Expr, ForHead, Key, Sign, Token};
use std::alloc::Global;

/// The variable of a `for` with its bounds and its step.
#[derive(Drop)]
pub struct Counted<'t> {
    pub variable: &'t Token,
    pub head: ForHead,
}

/// What stands between `for` and `do`.
pub fn head<'t>(alloc: Global, inside: u8, tokens: &'t [Token]) -> Parsed<'t, Counted<'t>>
    ensures read { (project : Project) → Answers counted_view (reading.head_read (block_at project inside) tokens.now) result }
    ensures shorter { IfOk result (λ found. length found.1.now < length tokens.now) }
{
    let (variable, after_name) = name(tokens)?;
    let (_, before_first) = key(Key::In, after_name)?;
    let (first, after_first) = expr(alloc, inside, ANY_LEVEL, before_first)?;
    let (_, before_last) = sign(Sign::Colon, after_first)?;
    let (last, after_last) = expr(alloc, inside, ANY_LEVEL, before_last)?;
    let (step, behind) = step(alloc, inside, after_last)?;
    let name = variable.name.copy(alloc)?;
    let head = ForHead {
        name,
        first,
        last,
        step,
    };
    let variable = variable.token;
    Ok((Counted { variable, head }, behind))
}

/// The step behind a `for`'s bounds, if there is one.
fn step<'t>(alloc: Global, inside: u8, tokens: &'t [Token]) -> Parsed<'t, Option<Expr>>
    ensures read { (project : Project) → Answers (option_map expr_view) (reading.step_read (block_at project inside) tokens.now) result }
    ensures shorter { IfOk result (λ found. length found.1.now ≤ length tokens.now) }
{
    match tokens.split_first() {
        Some((token, rest)) if is_key(Key::Step, &token.kind) => {
            let (by, behind) = expr(alloc, inside, ANY_LEVEL, rest)?;
            Ok((Some(by), behind))
        }
        _ => Ok((None, tokens)),
    }
}
