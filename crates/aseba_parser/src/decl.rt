//! Declarations.
ghost use Rattle.std.specs.Prelude.{◌≤◌, ◌<◌, [], ◌∷◌, ◌++◌, length, map, option_map, IfOk};
ghost use Rattle.aseba_tree.specs.View.{place_view, expr_view, decl_view};
ghost use Rattle.aseba_parser.specs.Reading as reading;
ghost use Rattle.aseba_parser.specs.Reads.{Answers, given_view};

use crate::expr::expr;
use crate::fault::Parsed;
use crate::lists::with;
use crate::operators::ANY_LEVEL;
use crate::tokens::{begins_with_key, is_sign, key, name, opened, sign};
use aseba_tree::{Decl, Expr, Key, Pos, Sign, Token};
use aseba_words::List;
use std::alloc::Global;

/// The value of a declaration with the place of its sign, or with its name's where there is none.
#[derive(Drop)]
pub struct Given {
    pub equals: Pos,
    pub value: Option<Expr>,
}

/// As many declarations as there are at the front.
pub fn decls<'t>(alloc: Global, depth: u8, tokens: &'t [Token]) -> Parsed<'t, List<Decl>>
    ensures read { Answers (map decl_view) (reading.all_of (reading.is_key Key.Var) (reading.decl_read depth) tokens.now) result }
    ensures shorter { IfOk result (λ found. length found.1.now ≤ length tokens.now) }
{
    let mut done = List::new(alloc);
    let mut rest = tokens;
    while begins_with_key(Key::Var, rest) {
        let (grown, behind) = another(alloc, depth, done, rest)?;
        done = grown;
        rest = behind;
    }
    Ok((done, rest))
}

/// The declarations with the one at the front.
fn another<'t>(
    alloc: Global,
    depth: u8,
    done: List<Decl>,
    tokens: &'t [Token],
) -> Parsed<'t, List<Decl>>
    ensures read { Answers (map decl_view)
        (reading.next (reading.decl_read depth tokens.now) (λ d behind. reading.taken (map decl_view done ++ d ∷ []) behind))
        result }
    ensures shorter { IfOk result (λ found. length found.1.now < length tokens.now) }
{
    let (found, rest) = decl(alloc, depth, tokens)?;
    Ok((with(done, found)?, rest))
}

/// A `var`.
fn decl<'t>(alloc: Global, depth: u8, tokens: &'t [Token]) -> Parsed<'t, Decl>
    ensures read { Answers decl_view (reading.decl_read depth tokens.now) result }
    ensures shorter { IfOk result (λ found. length found.1.now < length tokens.now) }
{
    let (word, after_word) = key(Key::Var, tokens)?;
    let (named, after_name) = name(after_word)?;
    let (size, after) = size(alloc, depth, after_name)?;
    let (given, behind) = value(alloc, depth, named.token.at, after)?;
    let name = named.name.copy(alloc)?;
    let decl = Decl {
        line: word.at.line,
        at: named.token.at,
        name,
        size,
        equals: given.equals,
        value: given.value,
    };
    Ok((decl, behind))
}

/// The size of a variable in its brackets, if there is one.
fn size<'t>(alloc: Global, depth: u8, tokens: &'t [Token]) -> Parsed<'t, Option<Expr>>
    ensures read { Answers (option_map expr_view) (reading.size_read depth tokens.now) result }
    ensures shorter { IfOk result (λ found. length found.1.now ≤ length tokens.now) }
{
    match tokens.split_first() {
        Some((token, rest)) if is_sign(Sign::OpenBracket, &token.kind) => {
            let inside = opened(depth, tokens)?;
            let (size, after) = expr(alloc, inside, ANY_LEVEL, rest)?;
            let (_, behind) = sign(Sign::CloseBracket, after)?;
            Ok((Some(size), behind))
        }
        _ => Ok((None, tokens)),
    }
}

/// The value of a variable behind its `=`, if there is one.
fn value<'t>(alloc: Global, depth: u8, named: Pos, tokens: &'t [Token]) -> Parsed<'t, Given>
    ensures read { Answers given_view (reading.value_read depth (place_view named) tokens.now) result }
    ensures shorter { IfOk result (λ found. length found.1.now ≤ length tokens.now) }
{
    match tokens.split_first() {
        Some((token, rest)) if is_sign(Sign::Assign, &token.kind) => {
            let (value, behind) = expr(alloc, depth, ANY_LEVEL, rest)?;
            let given = Given {
                equals: token.at,
                value: Some(value),
            };
            Ok((given, behind))
        }
        _ => {
            let given = Given {
                equals: named,
                value: None,
            };
            Ok((given, tokens))
        }
    }
}
