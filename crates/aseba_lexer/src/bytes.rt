ghost use Rattle.std.specs.Prelude.{◌≡◌};
ghost use Rattle.aseba_lexer.specs.Found as found;

use aseba_words::{begins_name, is_digit};

/// A letter, a digit or `_`.
pub fn begins_word(b: u8) -> bool
    ensures { result ≡ found.begins_word b }
{
    begins_name(b) || is_digit(b)
}
