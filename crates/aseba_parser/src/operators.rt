ghost use Rattle.std.specs.Prelude.{◌≡◌};
ghost use Rattle.aseba_tree.specs.Spells as spells;
ghost use Rattle.aseba_parser.specs.Reading as reading;
ghost use Rattle.aseba_parser.specs.Reads.{IsPrefix, IsInfix, IsInfixLevel};

use aseba_tree::{Key, Sign, Token, TokenKind};
use aseba_words::{Binary, Unary};

/// The level of leaves, the tightest of all.
pub const LEAVES: u8 = 0;

/// The loosest level, of which any expression is.
pub const ANY_LEVEL: u8 = 11;

/// The operator of two operands that a token is.
fn operator(kind: &TokenKind) -> Option<Binary>
    ensures { result ≡ spells.operator kind.now }
{
    match kind {
        TokenKind::Sign(Sign::Star) => Some(Binary::Mul),
        TokenKind::Sign(Sign::Slash) => Some(Binary::Div),
        TokenKind::Sign(Sign::Percent) => Some(Binary::Rem),
        TokenKind::Sign(Sign::Plus) => Some(Binary::Add),
        TokenKind::Sign(Sign::Minus) => Some(Binary::Sub),
        TokenKind::Sign(Sign::ShiftLeft) => Some(Binary::Shl),
        TokenKind::Sign(Sign::ShiftRight) => Some(Binary::Shr),
        TokenKind::Sign(Sign::Ampersand) => Some(Binary::BitAnd),
        TokenKind::Sign(Sign::Caret) => Some(Binary::BitXor),
        TokenKind::Sign(Sign::Bar) => Some(Binary::BitOr),
        TokenKind::Sign(Sign::EqualEqual) => Some(Binary::Equal),
        TokenKind::Sign(Sign::NotEqual) => Some(Binary::Differ),
        TokenKind::Sign(Sign::Less) => Some(Binary::Below),
        TokenKind::Sign(Sign::LessEqual) => Some(Binary::AtMost),
        TokenKind::Sign(Sign::Greater) => Some(Binary::Above),
        TokenKind::Sign(Sign::GreaterEqual) => Some(Binary::AtLeast),
        TokenKind::Key(Key::And) => Some(Binary::And),
        TokenKind::Key(Key::Or) => Some(Binary::Or),
        _ => None,
    }
}

/// The operator of one operand that a token is.
fn prefix_operator(kind: &TokenKind) -> Option<Unary>
    ensures { result ≡ spells.prefix_operator kind.now }
{
    match kind {
        TokenKind::Sign(Sign::Minus) => Some(Unary::Minus),
        TokenKind::Sign(Sign::Tilde) => Some(Unary::BitNot),
        TokenKind::Key(Key::Abs) => Some(Unary::Abs),
        TokenKind::Key(Key::Not) => Some(Unary::Not),
        _ => None,
    }
}

/// The operator with which a sign changes its target by an expression.
pub fn changing(kind: &TokenKind) -> Option<Binary>
    ensures { result ≡ spells.changing kind.now }
{
    match kind {
        TokenKind::Sign(Sign::PlusAssign) => Some(Binary::Add),
        TokenKind::Sign(Sign::MinusAssign) => Some(Binary::Sub),
        TokenKind::Sign(Sign::StarAssign) => Some(Binary::Mul),
        TokenKind::Sign(Sign::SlashAssign) => Some(Binary::Div),
        TokenKind::Sign(Sign::PercentAssign) => Some(Binary::Rem),
        TokenKind::Sign(Sign::ShiftLeftAssign) => Some(Binary::Shl),
        TokenKind::Sign(Sign::ShiftRightAssign) => Some(Binary::Shr),
        TokenKind::Sign(Sign::AmpersandAssign) => Some(Binary::BitAnd),
        TokenKind::Sign(Sign::BarAssign) => Some(Binary::BitOr),
        TokenKind::Sign(Sign::CaretAssign) => Some(Binary::BitXor),
        _ => None,
    }
}

/// The operator with which a sign changes its target by 1.
pub fn stepping(kind: &TokenKind) -> Option<Binary>
    ensures { result ≡ spells.stepping kind.now }
{
    match kind {
        TokenKind::Sign(Sign::PlusPlus) => Some(Binary::Add),
        TokenKind::Sign(Sign::MinusMinus) => Some(Binary::Sub),
        _ => None,
    }
}

fn level_of(op: Binary) -> u8
    ensures { result ≡ spells.level_of op }
{
    match op {
        Binary::Mul | Binary::Div | Binary::Rem => 2,
        Binary::Add | Binary::Sub => 3,
        Binary::Shl | Binary::Shr => 4,
        Binary::BitAnd => 5,
        Binary::BitXor => 6,
        Binary::BitOr => 7,
        Binary::Equal
        | Binary::Differ
        | Binary::Below
        | Binary::AtMost
        | Binary::Above
        | Binary::AtLeast => 8,
        Binary::And => 10,
        Binary::Or => 11,
    }
}

fn prefix_level(op: Unary) -> u8
    ensures { result ≡ spells.prefix_level op }
{
    match op {
        Unary::Minus | Unary::BitNot | Unary::Abs => 1,
        Unary::Not => 9,
    }
}

/// The operator of two operands that a token is, if it is one of that level.
fn infix_at(level: u8, kind: &TokenKind) -> Option<Binary>
    ensures { result ≡ reading.infix_at level kind.now }
{
    match operator(kind) {
        Some(op) if level_of(op) == level => Some(op),
        _ => None,
    }
}

/// An operator of one operand with its level, its token and the tokens behind it.
#[derive(Clone, Copy)]
pub struct PrefixToken<'t> {
    pub op: Unary,
    pub level: u8,
    pub token: &'t Token,
    pub rest: &'t [Token],
}

/// The operator of one operand at the front, if it is of that level or of a tighter one.
pub fn prefix<'t>(level: u8, tokens: &'t [Token]) -> Option<PrefixToken<'t>>
    ensures { IsPrefix level tokens.now result }
{
    match tokens.split_first() {
        Some((token, rest)) => match prefix_operator(&token.kind) {
            Some(op) if prefix_level(op) <= level => Some(PrefixToken {
                op,
                level: prefix_level(op),
                token,
                rest,
            }),
            _ => None,
        },
        None => None,
    }
}

/// The level of the operator of two operands at the front, if it is above the one level and not
/// above the other.
pub fn infix_level(above: u8, level: u8, tokens: &[Token]) -> Option<u8>
    ensures { IsInfixLevel above level tokens.now result }
{
    match tokens.split_first() {
        Some((token, _)) => match operator(&token.kind) {
            Some(op) if above < level_of(op) && level_of(op) <= level => Some(level_of(op)),
            _ => None,
        },
        None => None,
    }
}

/// An operator of two operands with its token and the tokens behind it.
#[derive(Clone, Copy)]
pub struct InfixToken<'t> {
    pub op: Binary,
    pub token: &'t Token,
    pub rest: &'t [Token],
}

/// The operator of that level at the front.
pub fn infix<'t>(level: u8, tokens: &'t [Token]) -> Option<InfixToken<'t>>
    ensures { IsInfix level tokens.now result }
{
    match tokens.split_first() {
        Some((token, rest)) => match infix_at(level, &token.kind) {
            Some(op) => Some(InfixToken { op, token, rest }),
            None => None,
        },
        None => None,
    }
}
