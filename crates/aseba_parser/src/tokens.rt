ghost use Rattle.std.specs.Prelude.{◌≡◌, ◌<◌, length, IfOk};
ghost use Rattle.aseba_parser.specs.Reading as reading;
ghost use Rattle.aseba_parser.specs.Reads.{Answers, IsBehind, OpensExprs, OpensBlocks, IsFirst, Enters, begins_with, named_view};
ghost use Rattle.aseba_tree.specs.Code.{Project};

use crate::fault::{Fault, Parsed};
use aseba_tree::{Key, Sign, Token, TokenKind};
use aseba_words::Name;

pub fn is_sign(sign: Sign, kind: &TokenKind) -> bool
    ensures { result ≡ reading.is_sign sign kind.now }
{
    match kind {
        TokenKind::Sign(found) => *found == sign,
        _ => false,
    }
}

pub fn is_key(key: Key, kind: &TokenKind) -> bool
    ensures { result ≡ reading.is_key key kind.now }
{
    match kind {
        TokenKind::Key(found) => *found == key,
        _ => false,
    }
}

/// That symbol at the front.
pub fn sign<'t>(sign: Sign, tokens: &'t [Token]) -> Parsed<'t, &'t Token>
    ensures read { Answers (λ t. t.now) (reading.expected (reading.is_sign sign) tokens.now) result }
    ensures shorter { IfOk result (λ found. length found.1.now < length tokens.now) }
{
    match tokens.split_first() {
        Some((token, rest)) if is_sign(sign, &token.kind) => Ok((token, rest)),
        _ => Err(Fault::Syntax(tokens)),
    }
}

/// That keyword at the front.
pub fn key<'t>(key: Key, tokens: &'t [Token]) -> Parsed<'t, &'t Token>
    ensures read { Answers (λ t. t.now) (reading.expected (reading.is_key key) tokens.now) result }
    ensures shorter { IfOk result (λ found. length found.1.now < length tokens.now) }
{
    match tokens.split_first() {
        Some((token, rest)) if is_key(key, &token.kind) => Ok((token, rest)),
        _ => Err(Fault::Syntax(tokens)),
    }
}

/// A name with its token.
#[derive(Clone, Copy)]
pub struct Named<'t> {
    pub token: &'t Token,
    pub name: &'t Name,
}

/// A name at the front, with its token.
pub fn name<'t>(tokens: &'t [Token]) -> Parsed<'t, Named<'t>>
    ensures read { Answers named_view (reading.named tokens.now) result }
    ensures shorter { IfOk result (λ found. length found.1.now < length tokens.now) }
{
    match tokens.split_first() {
        Some((token, rest)) => match &token.kind {
            TokenKind::Name(name) => Ok((Named { token, name }, rest)),
            _ => Err(Fault::Syntax(tokens)),
        },
        None => Err(Fault::Syntax(tokens)),
    }
}

/// What follows that symbol, where it is at the front.
pub fn behind_sign<'t>(sign: Sign, tokens: &'t [Token]) -> Option<&'t [Token]>
    ensures { IsBehind (reading.is_sign sign) tokens.now result }
{
    match tokens.split_first() {
        Some((token, rest)) if is_sign(sign, &token.kind) => Some(rest),
        _ => None,
    }
}

/// How many levels may be opened inside what the first token opens.
pub fn opened<'t>(depth: u8, tokens: &'t [Token]) -> Result<u8, Fault<'t>>
    ensures inside_exprs { OpensExprs depth tokens.now result }
    ensures inside_blocks { (project : Project) → OpensBlocks project depth tokens.now result }
    ensures less { IfOk result (λ inside. inside < depth) }
{
    if depth == 0 {
        Err(Fault::TooDeep(tokens))
    } else {
        Ok(depth - 1)
    }
}

/// The first token, with those behind it.
pub fn first<'t>(tokens: &'t [Token]) -> Result<(&'t Token, &'t [Token]), Fault<'t>>
    ensures first { IsFirst tokens.now result }
    ensures shorter { IfOk result (λ found. length found.1.now < length tokens.now) }
{
    match tokens.split_first() {
        Some((token, rest)) => Ok((token, rest)),
        None => Err(Fault::Syntax(tokens)),
    }
}

/// Whether the first token is that keyword.
pub fn begins_with_key(key: Key, tokens: &[Token]) -> bool
    ensures { result ≡ begins_with (reading.is_key key) tokens.now }
{
    match tokens.split_first() {
        Some((token, _)) => is_key(key, &token.kind),
        None => false,
    }
}

/// The word that opens a block, how many levels may be opened inside it, and the tokens behind it.
#[derive(Clone, Copy)]
pub struct Opening<'t> {
    pub word: &'t Token,
    pub inside: u8,
    pub rest: &'t [Token],
}

/// The word at the front, which opens a block.
pub fn entered<'t>(depth: u8, tokens: &'t [Token]) -> Result<Opening<'t>, Fault<'t>>
    ensures opens { (project : Project) → Enters project depth tokens.now result }
    ensures shorter { IfOk result (λ opening. length opening.rest.now < length tokens.now) }
    ensures less { IfOk result (λ opening. opening.inside < depth) }
{
    let (word, rest) = first(tokens)?;
    let inside = opened(depth, tokens)?;
    Ok(Opening { word, inside, rest })
}
