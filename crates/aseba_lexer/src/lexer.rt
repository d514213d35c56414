ghost use Rattle.std.specs.Prelude.{◌≡◌, ◌+◌, ◌^◌, ◌≤◌, ◌<◌, length, IfOk, IfErr};
ghost use Rattle.aseba_tree.specs.Tokens.{Tokens};
ghost use Rattle.aseba_lexer.specs.Found as found;
ghost use Rattle.aseba_lexer.specs.Lexed.{TellsFault, IsDecided};

use crate::bytes::begins_word;
use crate::comments::{block_len, line_len};
use crate::error::LexError;
use crate::places::{START, behind};
use crate::signs::sign_at;
use crate::words::{kind_of_word, word_rest};
use aseba_tree::{Pos, Token, TokenKind};
use aseba_words::{List, is_blank};
use std::alloc::Global;

/// The tokens of a text, each with the place of its first byte, in time linear in the text. They
/// are no more than its bytes. The error of a text that has none tells of the first place where
/// nothing begins.
pub fn lex(alloc: Global, text: &[u8]) -> Result<List<Token>, LexError>
    requires { length text.now < 4294967295 }
    ensures tokens { IfOk result (λ tokens. Tokens text.now tokens) }
    ensures few { IfOk result (λ tokens. length tokens ≤ length text.now) }
    ensures fault { IfErr result (λ error. TellsFault text.now error) }
    ensures decided { IsDecided text.now }
{
    let mut tokens = List::new(alloc);
    let mut at = START;
    let mut rest = text;
    while !rest.is_empty() {
        match step(alloc, &mut tokens, at, rest) {
            Ok(length) => {
                let (piece, after) = rest.split_at(length);
                at = behind(at, piece);
                rest = after;
            }
            Err(error) => return Err(error),
        }
    }
    Ok(tokens)
}

/// The length of what begins at the front of a text that isn't empty. The tokens get its token, if
/// it is one.
fn step(alloc: Global, tokens: &mut List<Token>, at: Pos, text: &[u8]) -> Result<usize, LexError>
    requires { 1 ≤ length text.now }
    ensures value { found.IsStep at (found.found text.now) tokens.old tokens.new result }
    ensures within { IfOk result (λ n. (1 ≤ n) × (n ≤ length text.now)) }
{
    match text {
        [b, ..] if is_blank(*b) => Ok(1),
        [b'#', rest @ ..] => comment(at, rest),
        [b, ..] if begins_word(*b) => word(alloc, tokens, at, text),
        _ => sign(tokens, at, text),
    }
}

/// The length of a comment, of which the first byte was read.
fn comment(at: Pos, rest: &[u8]) -> Result<usize, LexError>
    requires { 1 + length rest.now < 2 ^ 64 }
    ensures value { found.IsSkip at (found.comment_found rest.now) result }
    ensures within { IfOk result (λ n. (1 ≤ n) × (n ≤ 1 + length rest.now)) }
{
    match rest {
        [b'*', inside @ ..] => match block_len(inside) {
            Some(inner) => Ok(2 + inner),
            None => Err(LexError::OpenComment { at }),
        },
        _ => Ok(1 + line_len(rest)),
    }
}

/// The length of the word at the front, whose token is added.
fn word(alloc: Global, tokens: &mut List<Token>, at: Pos, text: &[u8]) -> Result<usize, LexError>
    requires { 1 ≤ length text.now }
    ensures value { found.IsStep at (found.word_at text.now) tokens.old tokens.new result }
    ensures within { IfOk result (λ n. (1 ≤ n) × (n ≤ length text.now)) }
{
    let length = 1 + word_rest(&text[1..]);
    match kind_of_word(alloc, &text[..length])? {
        Some(kind) => {
            tokens.add(Token { at, kind })?;
            Ok(length)
        }
        None => Err(LexError::BadNumber { at }),
    }
}

/// The length of the symbol at the front, whose token is added.
fn sign(tokens: &mut List<Token>, at: Pos, text: &[u8]) -> Result<usize, LexError>
    ensures value { found.IsStep at (found.sign_found text.now) tokens.old tokens.new result }
    ensures within { IfOk result (λ n. (1 ≤ n) × (n ≤ length text.now)) }
{
    match sign_at(text) {
        Some(found) => {
            let kind = TokenKind::Sign(found.sign);
            tokens.add(Token { at, kind })?;
            Ok(found.len)
        }
        None => Err(LexError::BadByte { at }),
    }
}
