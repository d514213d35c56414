//! The kinds of bytes that sources and texts are made of.
ghost use Rattle.std.specs.Prelude.{◌≡◌};
ghost use Rattle.std.specs.List.{list_all};
ghost use Rattle.aseba_words.specs.Bytes as kinds;

/// Whether a byte lies from `low` to `high`, both included.
pub fn is_within(low: u8, high: u8, b: u8) -> bool
    ensures { result ≡ kinds.is_within low high b }
{
    low <= b && b <= high
}

/// A space, a tab, a carriage return or a line feed.
pub fn is_blank(b: u8) -> bool
    ensures { result ≡ kinds.is_blank b }
{
    b == b' ' || b == b'\t' || b == b'\r' || b == b'\n'
}

/// A decimal digit.
pub fn is_digit(b: u8) -> bool
    ensures { result ≡ kinds.is_digit b }
{
    is_within(b'0', b'9', b)
}

/// A letter or `_`: what a name begins with.
pub fn begins_name(b: u8) -> bool
    ensures { result ≡ kinds.is_name_start b }
{
    is_within(b'a', b'z', b) || is_within(b'A', b'Z', b) || b == b'_'
}

/// A letter, a digit, `_` or `.`: what stands in a name behind its first byte.
pub fn continues_name(b: u8) -> bool
    ensures { result ≡ kinds.is_word_byte b }
{
    begins_name(b) || is_digit(b) || b == b'.'
}

/// Whether the bytes are spelled as a name is: a letter or `_`, and then letters, digits, `_` and
/// `.`. A keyword is spelled so too.
pub fn is_name_like(bytes: &[u8]) -> bool
    ensures { result ≡ kinds.is_name_like bytes.now }
{
    match bytes {
        [] => false,
        [first, rest @ ..] => begins_name(*first) && continue_name(rest),
    }
}

fn continue_name(bytes: &[u8]) -> bool
    ensures { result ≡ list_all kinds.is_word_byte bytes.now }
{
    bytes.iter().all(|b| continues_name(*b))
}
