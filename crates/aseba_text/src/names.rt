//! Texts for a reader.
ghost use Rattle.std.specs.Prelude.{◌≡◌};
ghost use Rattle.aseba_text.specs.Names as spec;

use aseba_words::{MOST_NAME_BYTES, is_within};

/// Whether the bytes are a text for a reader: at most 255 bytes, from the blank to `~`.
pub fn is_text(text: &[u8]) -> bool
    ensures { result ≡ spec.is_text text.now }
{
    text.len() <= MOST_NAME_BYTES && is_printable(text)
}

/// Whether each byte lies from the blank to `~`.
pub fn is_printable(bytes: &[u8]) -> bool
    ensures { result ≡ spec.is_printable bytes.now }
{
    bytes.iter().all(|b| is_within(32, 126, *b))
}
