ghost use Rattle.std.specs.Prelude.{◌≡◌, ◌≤◌, [], ◌∷◌, length, IfSome};
ghost use Rattle.aseba_tree.specs.Tokens.{spelled_in, symbols};
ghost use Rattle.aseba_lexer.specs.Found as found;

use aseba_tree::Sign;

/// A symbol with the number of its bytes.
#[derive(Clone, Copy)]
pub struct Spelled {
    pub sign: Sign,
    pub len: usize,
}

/// The longest symbol at the front.
pub fn sign_at(text: &[u8]) -> Option<Spelled>
    ensures value { found.sign_result result ≡ found.sign_found text.now }
    ensures within { IfSome result (λ s. (1 ≤ s.len) × (s.len ≤ length text.now)) }
{
    match text {
        [] => None,
        [a] => one_at(*a),
        [a, b] => two_at(*a, *b),
        [a, b, c, ..] => match three_sign_of(*a, *b, *c) {
            Some(sign) => Some(Spelled { sign, len: 3 }),
            None => two_at(*a, *b),
        },
    }
}

fn two_at(a: u8, b: u8) -> Option<Spelled>
    ensures value { found.sign_result result ≡ found.two_found a b }
    ensures within { IfSome result (λ s. (1 ≤ s.len) × (s.len ≤ 2)) }
{
    match two_sign_of(a, b) {
        Some(sign) => Some(Spelled { sign, len: 2 }),
        None => one_at(a),
    }
}

fn one_at(a: u8) -> Option<Spelled>
    ensures value { found.sign_result result ≡ found.one_found a }
    ensures within { IfSome result (λ s. s.len ≡ 1) }
{
    match one_sign_of(a) {
        Some(sign) => Some(Spelled { sign, len: 1 }),
        None => None,
    }
}

/// The symbol of one byte.
fn one_sign_of(a: u8) -> Option<Sign>
    ensures { result ≡ spelled_in symbols (a ∷ []) }
{
    match a {
        b'=' => Some(Sign::Assign),
        b'+' => Some(Sign::Plus),
        b'-' => Some(Sign::Minus),
        b'*' => Some(Sign::Star),
        b'/' => Some(Sign::Slash),
        b'%' => Some(Sign::Percent),
        b'&' => Some(Sign::Ampersand),
        b'|' => Some(Sign::Bar),
        b'^' => Some(Sign::Caret),
        b'~' => Some(Sign::Tilde),
        b'<' => Some(Sign::Less),
        b'>' => Some(Sign::Greater),
        b'(' => Some(Sign::OpenParen),
        b')' => Some(Sign::CloseParen),
        b'[' => Some(Sign::OpenBracket),
        b']' => Some(Sign::CloseBracket),
        b',' => Some(Sign::Comma),
        b':' => Some(Sign::Colon),
        _ => None,
    }
}

/// The symbol of two bytes.
fn two_sign_of(a: u8, b: u8) -> Option<Sign>
    ensures { result ≡ spelled_in symbols (a ∷ b ∷ []) }
{
    match (a, b) {
        (b'+', b'=') => Some(Sign::PlusAssign),
        (b'-', b'=') => Some(Sign::MinusAssign),
        (b'*', b'=') => Some(Sign::StarAssign),
        (b'/', b'=') => Some(Sign::SlashAssign),
        (b'%', b'=') => Some(Sign::PercentAssign),
        (b'&', b'=') => Some(Sign::AmpersandAssign),
        (b'|', b'=') => Some(Sign::BarAssign),
        (b'^', b'=') => Some(Sign::CaretAssign),
        (b'+', b'+') => Some(Sign::PlusPlus),
        (b'-', b'-') => Some(Sign::MinusMinus),
        (b'<', b'<') => Some(Sign::ShiftLeft),
        (b'>', b'>') => Some(Sign::ShiftRight),
        (b'=', b'=') => Some(Sign::EqualEqual),
        (b'!', b'=') => Some(Sign::NotEqual),
        (b'<', b'=') => Some(Sign::LessEqual),
        (b'>', b'=') => Some(Sign::GreaterEqual),
        _ => None,
    }
}

/// The symbol of three bytes.
fn three_sign_of(a: u8, b: u8, c: u8) -> Option<Sign>
    ensures { result ≡ spelled_in symbols (a ∷ b ∷ c ∷ []) }
{
    match (a, b, c) {
        (b'<', b'<', b'=') => Some(Sign::ShiftLeftAssign),
        (b'>', b'>', b'=') => Some(Sign::ShiftRightAssign),
        _ => None,
    }
}
