ghost use Rattle.std.specs.Prelude.{◌≡◌, ◌≤◌, length, Some, IfOk, option_map};
ghost use Rattle.aseba_tree.specs.declared.token.TokenKind.{TokenKind as Kind};
ghost use Rattle.aseba_tree.specs.Tokens as tokens;
ghost use Rattle.aseba_lexer.specs.Found as found;

use crate::numbers::number_of;
use aseba_tree::{Key, TokenKind};
use aseba_words::{Mem, Name, continues_name, is_digit, wrap};
use std::alloc::Global;

/// How far a word goes on behind its first byte.
pub fn word_rest(text: &[u8]) -> usize
    ensures value { result ≡ found.word_rest text.now }
    ensures within { result ≤ length text.now }
{
    text.iter().take_while(|b| continues_name(**b)).count()
}

/// The token that a word is, none for one that begins with a digit and is no number.
pub fn kind_of_word(alloc: Global, word: &[u8]) -> Result<Option<TokenKind>, Mem>
    ensures { IfOk result (λ kind. kind ≡ tokens.word_kind word.now) }
{
    match word {
        [] => Ok(None),
        [b, ..] if is_digit(*b) => Ok(number_kind(word)),
        [..] => Ok(Some(key_or_name(alloc, word)?)),
    }
}

fn number_kind(word: &[u8]) -> Option<TokenKind>
    ensures { result ≡ option_map Kind.Number (tokens.number_value word.now) }
{
    match number_of(word) {
        Some(value) => Some(TokenKind::Number(wrap(i64::from(value)))),
        None => None,
    }
}

fn key_or_name(alloc: Global, word: &[u8]) -> Result<TokenKind, Mem>
    ensures { IfOk result (λ kind. kind ≡ tokens.keyword_or_name (tokens.spelled_in tokens.keywords word.now) word.now) }
{
    match Key::of_word(word) {
        Some(key) => Ok(TokenKind::Key(key)),
        None => Ok(TokenKind::Name(Name::new(alloc, word)?)),
    }
}
