ghost use Rattle.std.specs.Prelude.{◌≡◌, ◌+◌, ◌<◌, ◌≤◌, [], ◌∷◌, length};
ghost use Rattle.aseba_tree.specs.Tokens as places;

use aseba_tree::Pos;

/// The place of a text's first byte.
pub const START: Pos = Pos { line: 1, col: 1 };

/// The place after the text's last byte. It takes no memory.
pub fn end_of(text: &[u8]) -> Pos
    requires { length text.now < 4294967295 }
    ensures { result ≡ places.behind places.first_place text.now }
{
    behind(START, text)
}

/// The place behind bytes.
pub fn behind(at: Pos, bytes: &[u8]) -> Pos
    requires line { 1 ≤ at.line }
    requires col { 1 ≤ at.col }
    requires room { at.line + at.col + length bytes.now ≤ 4294967296 }
    ensures value { result ≡ places.behind at bytes.now }
    ensures line { 1 ≤ result.line }
    ensures col { 1 ≤ result.col }
    ensures room { result.line + result.col ≤ at.line + at.col + length bytes.now }
{
    let mut place = at;
    let mut rest = bytes;
    while let [b, after @ ..] = rest {
        place = behind_byte(place, *b);
        rest = after;
    }
    place
}

fn behind_byte(at: Pos, b: u8) -> Pos
    requires line { 1 ≤ at.line }
    requires col { 1 ≤ at.col }
    requires room { at.line + at.col < 4294967296 }
    ensures value { result ≡ places.behind at (b ∷ []) }
    ensures line { 1 ≤ result.line }
    ensures col { 1 ≤ result.col }
    ensures room { result.line + result.col ≤ at.line + at.col + 1 }
{
    if b == b'\n' {
        Pos {
            line: at.line + 1,
            col: 1,
        }
    } else {
        Pos {
            line: at.line,
            col: at.col + 1,
        }
    }
}
