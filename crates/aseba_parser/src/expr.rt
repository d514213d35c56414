ghost use Rattle.std.specs.Prelude.{◌≡◌, ◌-◌, ◌≤◌, ◌<◌, [], ◌∷◌, ◌++◌, length, map, IfOk};
ghost use Rattle.aseba_tree.specs.Spells as spells;
ghost use Rattle.aseba_tree.specs.Code as code;
ghost use Rattle.aseba_tree.specs.View.{place_view, expr_view, exprs_view, part_view, target_view};
ghost use Rattle.aseba_parser.specs.Reading as reading;
ghost use Rattle.aseba_parser.specs.Reads.{Answers};

use crate::fault::{Fault, Parsed};
use crate::lists::with;
use crate::nodes::{begun_at, cell_at, cells_between, items, number, one, two, value_of};
use crate::operators::{ANY_LEVEL, InfixToken, LEAVES, PrefixToken, infix, infix_level, prefix};
use crate::tokens::{behind_sign, is_sign, name, opened, sign};
use aseba_tree::{Expr, Part, Pos, Sign, Target, Token, TokenKind};
use aseba_words::List;
use std::alloc::Global;

/// An expression of a level at the front, where so many more levels of nesting may be opened.
#[cycle(expr)]
pub fn expr<'t>(alloc: Global, depth: u8, level: u8, tokens: &'t [Token]) -> Parsed<'t, Expr>
    ensures read { Answers expr_view (reading.expr_read depth level tokens.now) result }
    ensures shorter { IfOk result (λ found. length found.1.now < length tokens.now) }
{
    match prefix(level, tokens) {
        Some(found) => prefixed(alloc, depth, level, found, tokens),
        None => unprefixed(alloc, depth, level, tokens),
    }
}

/// An operator of one operand at the front with its operand, and the operations of the levels above
/// its own, up to a level.
#[cycle(expr)]
fn prefixed<'t>(
    alloc: Global,
    depth: u8,
    level: u8,
    found: PrefixToken<'t>,
    tokens: &'t [Token],
) -> Parsed<'t, Expr>
    requires up_to { found.level ≤ level }
    requires front { tokens.now ≡ found.token.now ∷ found.rest.now }
    ensures read { Answers expr_view
        (reading.next (reading.operand_read (reading.inside_of depth) found.entry.level found.entry.op tokens.now)
        (λ e behind. reading.raised (reading.inside_of depth) found.entry.level level e behind))
        result }
    ensures shorter { IfOk result (λ found. length found.1.now < length tokens.now) }
{
    let inside = opened(depth, tokens)?;
    let (operand, behind) = expr(alloc, inside, found.level, found.rest)?;
    let whole = one(alloc, found.op, found.token.at, operand)?;
    raised(alloc, depth, found.level, level, whole, behind)
}

/// A leaf and the operations of the levels up to that one.
#[cycle(expr)]
fn unprefixed<'t>(alloc: Global, depth: u8, level: u8, tokens: &'t [Token]) -> Parsed<'t, Expr>
    ensures read { Answers expr_view
        (reading.next (reading.leaf (reading.inside_of depth) tokens.now) (λ e behind. reading.raised (reading.inside_of depth) 0 level e behind))
        result }
    ensures shorter { IfOk result (λ found. length found.1.now < length tokens.now) }
{
    let (first, behind) = leaf(alloc, depth, tokens)?;
    raised(alloc, depth, LEAVES, level, first, behind)
}

/// An expression of the level `above` with the operations behind it of the levels from there up to
/// `level`. It goes from one to the next whose operator stands there.
#[cycle(expr)]
fn raised<'t>(
    alloc: Global,
    depth: u8,
    above: u8,
    level: u8,
    first: Expr,
    tokens: &'t [Token],
) -> Parsed<'t, Expr>
    requires { above ≤ level }
    ensures read { Answers expr_view (reading.raised (reading.inside_of depth) above level (expr_view first) tokens.now) result }
    ensures shorter { IfOk result (λ found. length found.1.now ≤ length tokens.now) }
{
    let mut done = above;
    let mut left = first;
    let mut rest = tokens;
    while let Some(own) = infix_level(done, level, rest) {
        let (grown, behind) = operations(alloc, depth, own, left, rest)?;
        done = own;
        left = grown;
        rest = behind;
    }
    Ok((left, rest))
}

/// The operations of a level behind their first operand, grouped to the left.
#[cycle(expr)]
fn operations<'t>(
    alloc: Global,
    depth: u8,
    level: u8,
    first: Expr,
    tokens: &'t [Token],
) -> Parsed<'t, Expr>
    requires { 1 ≤ level }
    ensures read { Answers expr_view (reading.operations level (reading.expr_read depth (level - 1)) (expr_view first) tokens.now) result }
    ensures shorter { IfOk result (λ found. length found.1.now ≤ length tokens.now) }
{
    let mut left = first;
    let mut rest = tokens;
    while let Some(found) = infix(level, rest) {
        let (grown, behind) = operation(alloc, depth, level, left, found)?;
        left = grown;
        rest = behind;
    }
    Ok((left, rest))
}

/// An operator's right side, with what stands to the left of it.
#[cycle(expr)]
fn operation<'t>(
    alloc: Global,
    depth: u8,
    level: u8,
    left: Expr,
    found: InfixToken<'t>,
) -> Parsed<'t, Expr>
    requires { 1 ≤ level }
    ensures read { Answers expr_view
        (reading.next (reading.expr_read depth (level - 1) found.entry.rest.now)
        (λ right behind. reading.taken (code.expr (spells.first_of (expr_view left)) (spells.place found.entry.token.now) (code.two found.entry.op (expr_view left) right)) behind))
        result }
    ensures shorter { IfOk result (λ after. length after.1.now < length found.entry.rest.now) }
{
    let (right, behind) = expr(alloc, depth, level - 1, found.rest)?;
    Ok((two(alloc, found.op, found.token.at, left, right)?, behind))
}

/// A number, a variable, a list or what stands in parentheses.
#[cycle(expr)]
fn leaf<'t>(alloc: Global, depth: u8, tokens: &'t [Token]) -> Parsed<'t, Expr>
    ensures read { Answers expr_view (reading.leaf (reading.inside_of depth) tokens.now) result }
    ensures shorter { IfOk result (λ found. length found.1.now < length tokens.now) }
{
    let Some((token, rest)) = tokens.split_first() else {
        return Err(Fault::Syntax(tokens));
    };
    match &token.kind {
        TokenKind::Number(value) => Ok((number(token.at, *value), rest)),
        TokenKind::Name(_) => {
            let (target, behind) = target(alloc, depth, tokens)?;
            Ok((value_of(target), behind))
        }
        TokenKind::Sign(found) if *found == Sign::OpenParen => {
            let inside = opened(depth, tokens)?;
            parenthesised(alloc, inside, token.at, rest)
        }
        TokenKind::Sign(found) if *found == Sign::OpenBracket => {
            let inside = opened(depth, tokens)?;
            bracketed(alloc, inside, token.at, rest)
        }
        TokenKind::Sign(_) => Err(Fault::Syntax(tokens)),
        TokenKind::Key(_) => Err(Fault::Syntax(tokens)),
    }
}

/// An expression and the parenthesis behind it, where the one before it is at that place.
#[cycle(expr)]
fn parenthesised<'t>(alloc: Global, inside: u8, at: Pos, tokens: &'t [Token]) -> Parsed<'t, Expr>
    ensures read { Answers expr_view
        (reading.next (reading.expr_read inside spells.any_level tokens.now)
        (λ e after. reading.next (reading.expected (reading.is_sign Sign.CloseParen) after) (λ closing behind. reading.taken (spells.begun_at (place_view at) e) behind)))
        result }
    ensures shorter { IfOk result (λ found. length found.1.now < length tokens.now) }
{
    let (inner, after) = expr(alloc, inside, ANY_LEVEL, tokens)?;
    let (_, behind) = sign(Sign::CloseParen, after)?;
    Ok((begun_at(at, inner), behind))
}

/// The elements of a list and the bracket behind them, where the one before them is at that place.
#[cycle(expr)]
fn bracketed<'t>(alloc: Global, inside: u8, at: Pos, tokens: &'t [Token]) -> Parsed<'t, Expr>
    ensures read { Answers expr_view
        (reading.next (reading.list_read (reading.expr_read inside) tokens.now)
        (λ es after. reading.next (reading.expected (reading.is_sign Sign.CloseBracket) after)
        (λ closing behind. reading.taken (code.expr (place_view at) (place_view at) (code.items es)) behind)))
        result }
    ensures shorter { IfOk result (λ found. length found.1.now < length tokens.now) }
{
    let (elements, after) = list(alloc, inside, tokens)?;
    let (_, behind) = sign(Sign::CloseBracket, after)?;
    Ok((items(at, elements), behind))
}

/// One or more expressions with a comma between each two.
#[cycle(expr)]
pub fn list<'t>(alloc: Global, inside: u8, tokens: &'t [Token]) -> Parsed<'t, List<Expr>>
    ensures read { Answers exprs_view (reading.list_read (reading.expr_read inside) tokens.now) result }
    ensures shorter { IfOk result (λ found. length found.1.now < length tokens.now) }
{
    let (mut elements, mut rest) = element(alloc, inside, List::new(alloc), tokens)?;
    while let Some(after) = behind_sign(Sign::Comma, rest) {
        let (grown, behind) = element(alloc, inside, elements, after)?;
        elements = grown;
        rest = behind;
    }
    Ok((elements, rest))
}

/// The elements with the expression at the front.
#[cycle(expr)]
fn element<'t>(
    alloc: Global,
    inside: u8,
    elements: List<Expr>,
    tokens: &'t [Token],
) -> Parsed<'t, List<Expr>>
    ensures read { Answers (map expr_view)
        (reading.next (reading.expr_read inside spells.any_level tokens.now) (λ e behind. reading.taken (map expr_view elements ++ e ∷ []) behind))
        result }
    ensures shorter { IfOk result (λ found. length found.1.now < length tokens.now) }
{
    let (found, rest) = expr(alloc, inside, ANY_LEVEL, tokens)?;
    Ok((with(elements, found)?, rest))
}

/// A variable's name with the cells that are meant.
#[cycle(expr)]
pub fn target<'t>(alloc: Global, depth: u8, tokens: &'t [Token]) -> Parsed<'t, Target>
    ensures read { Answers target_view (reading.target_read (reading.inside_of depth) tokens.now) result }
    ensures shorter { IfOk result (λ found. length found.1.now < length tokens.now) }
{
    let (named, rest) = name(tokens)?;
    let (part, behind) = part(alloc, depth, rest)?;
    let name = named.name.copy(alloc)?;
    Ok((
        Target {
            at: named.token.at,
            name,
            part,
        },
        behind,
    ))
}

/// What stands behind a variable's name: nothing, an index or a range in brackets.
#[cycle(expr)]
fn part<'t>(alloc: Global, depth: u8, tokens: &'t [Token]) -> Parsed<'t, Part>
    ensures read { Answers part_view (reading.part_read (reading.inside_of depth) tokens.now) result }
    ensures shorter { IfOk result (λ found. length found.1.now ≤ length tokens.now) }
{
    match tokens.split_first() {
        Some((token, rest)) if is_sign(Sign::OpenBracket, &token.kind) => {
            let inside = opened(depth, tokens)?;
            let (first, after) = expr(alloc, inside, ANY_LEVEL, rest)?;
            index_end(alloc, inside, first, after)
        }
        _ => Ok((Part::All, tokens)),
    }
}

/// What stands behind the first expression in a variable's brackets.
#[cycle(expr)]
fn index_end<'t>(alloc: Global, inside: u8, first: Expr, tokens: &'t [Token]) -> Parsed<'t, Part>
    ensures read { Answers part_view (reading.index_end (reading.expr_read inside) (expr_view first) tokens.now) result }
    ensures shorter { IfOk result (λ found. length found.1.now < length tokens.now) }
{
    match tokens.split_first() {
        Some((token, rest)) if is_sign(Sign::Colon, &token.kind) => {
            let (last, after) = expr(alloc, inside, ANY_LEVEL, rest)?;
            let (_, behind) = sign(Sign::CloseBracket, after)?;
            Ok((cells_between(alloc, first, last)?, behind))
        }
        _ => {
            let (_, behind) = sign(Sign::CloseBracket, tokens)?;
            Ok((cell_at(alloc, first)?, behind))
        }
    }
}
