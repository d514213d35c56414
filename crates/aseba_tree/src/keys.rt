ghost use Rattle.std.specs.Prelude.{◌≡◌};
ghost use Rattle.aseba_tree.specs.Tokens as tokens;

use crate::token::Key;
use aseba_words::{MOST_NAME_BYTES, is_name_like};

impl Key {
    /// The keyword that a word is, if it is one.
    pub fn of_word(word: &[u8]) -> Option<Key>
        ensures { result ≡ tokens.spelled_in tokens.keywords word.now }
    {
        if b"var".as_slice() == word {
            Some(Key::Var)
        } else if b"onevent".as_slice() == word {
            Some(Key::OnEvent)
        } else if b"sub".as_slice() == word {
            Some(Key::Sub)
        } else if b"if".as_slice() == word {
            Some(Key::If)
        } else if b"then".as_slice() == word {
            Some(Key::Then)
        } else if b"elseif".as_slice() == word {
            Some(Key::ElseIf)
        } else if b"else".as_slice() == word {
            Some(Key::Else)
        } else if b"end".as_slice() == word {
            Some(Key::End)
        } else if b"when".as_slice() == word {
            Some(Key::When)
        } else if b"do".as_slice() == word {
            Some(Key::Do)
        } else if b"while".as_slice() == word {
            Some(Key::While)
        } else if b"for".as_slice() == word {
            Some(Key::For)
        } else if b"in".as_slice() == word {
            Some(Key::In)
        } else if b"step".as_slice() == word {
            Some(Key::Step)
        } else if b"emit".as_slice() == word {
            Some(Key::Emit)
        } else if b"callsub".as_slice() == word {
            Some(Key::CallSub)
        } else if b"call".as_slice() == word {
            Some(Key::Call)
        } else if b"return".as_slice() == word {
            Some(Key::Return)
        } else if b"and".as_slice() == word {
            Some(Key::And)
        } else if b"or".as_slice() == word {
            Some(Key::Or)
        } else if b"not".as_slice() == word {
            Some(Key::Not)
        } else if b"abs".as_slice() == word {
            Some(Key::Abs)
        } else {
            None
        }
    }
}

/// Whether a word is a keyword, so that it names nothing.
#[tactic(auto, unfolding(crate::specs::Tokens::is_keyword))]
pub fn is_keyword(word: &[u8]) -> bool
    ensures { result ≡ tokens.is_keyword word.now }
{
    Key::of_word(word).is_some()
}

/// Whether the bytes are a name that a text may give: a letter or `_`, then letters, digits, `_` and
/// `.`, at most 255 in all, and no keyword.
pub fn is_name(name: &[u8]) -> bool
    ensures { result ≡ tokens.is_name name.now }
{
    name.len() <= MOST_NAME_BYTES && is_name_like(name) && !is_keyword(name)
}
