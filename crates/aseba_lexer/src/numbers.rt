ghost use Rattle.std.specs.Prelude.{◌≡◌, ◌≤◌, ◌<◌, ◌+◌};
ghost use Rattle.aseba_lexer.specs.Numbers as numbers;

use aseba_words::is_digit;

/// The number that a word spells, decimal, hexadecimal behind `0x` or binary behind `0b`.
pub fn number_of(word: &[u8]) -> Option<u32>
    ensures { result ≡ numbers.number_of word.now }
{
    match word {
        [b'0', b'x', digits @ ..] => number(16, 65535, digits),
        [b'0', b'b', digits @ ..] => number(2, 65535, digits),
        digits => number(10, 32767, digits),
    }
}

/// The number that one or more digits spell, none above `most`.
fn number(base: u32, most: u32, digits: &[u8]) -> Option<u32>
    requires least { 1 ≤ base }
    requires base { base ≤ 16 }
    requires most { most ≤ 65535 }
    ensures { result ≡ numbers.number base most digits.now }
{
    match digits {
        [] => None,
        [_, ..] => number_within(base, most, digits),
    }
}

/// The number that digits spell, none above `most`. It stops at the digit that passes it.
fn number_within(base: u32, most: u32, digits: &[u8]) -> Option<u32>
    requires least { 1 ≤ base }
    requires base { base ≤ 16 }
    requires most { most ≤ 65535 }
    ensures { result ≡ numbers.number_within base most digits.now }
{
    let mut value = 0;
    let mut rest = digits;
    while let [b, after @ ..] = rest {
        let next = digit(*b);
        if next >= base {
            return None;
        }
        value = value * base + next;
        if value > most {
            return None;
        }
        rest = after;
    }
    Some(value)
}

/// The value of a digit of either case, 16 for what is none.
fn digit(b: u8) -> u32
    ensures value { result ≡ numbers.digit b }
    ensures bound { result ≤ 16 }
{
    if is_digit(b) {
        u32::from(b) - 48
    } else if b'a' <= b && b <= b'f' {
        u32::from(b) - 87
    } else if b'A' <= b && b <= b'F' {
        u32::from(b) - 55
    } else {
        16
    }
}
