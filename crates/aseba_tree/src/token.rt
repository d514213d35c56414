ghost use Rattle.std.specs.Prelude.{◌≡◌, IfOk};

use crate::pos::Pos;
use aseba_words::{Mem, Name};
use std::alloc::Global;

/// A word, number or symbol of a source, with the place of its first byte.
#[derive(Debug, Drop)]
pub struct Token {
    pub at: Pos,
    pub kind: TokenKind,
}

/// What a token is.
#[derive(Debug, Drop)]
pub enum TokenKind {
    Name(Name),
    /// Hexadecimal and binary numbers above 32767 stand for negative cells.
    Number(i16),
    Key(Key),
    Sign(Sign),
}

/// A keyword.
#[derive(Clone, Copy, Debug, PartialEq, Eq)]
pub enum Key {
    Var,
    OnEvent,
    Sub,
    If,
    Then,
    ElseIf,
    Else,
    End,
    When,
    Do,
    While,
    For,
    In,
    Step,
    Emit,
    CallSub,
    Call,
    Return,
    And,
    Or,
    Not,
    Abs,
}

/// A symbol, named by what it looks like.
#[derive(Clone, Copy, Debug, PartialEq, Eq)]
pub enum Sign {
    Assign,
    PlusAssign,
    MinusAssign,
    StarAssign,
    SlashAssign,
    PercentAssign,
    ShiftLeftAssign,
    ShiftRightAssign,
    AmpersandAssign,
    BarAssign,
    CaretAssign,
    PlusPlus,
    MinusMinus,
    Plus,
    Minus,
    Star,
    Slash,
    Percent,
    ShiftLeft,
    ShiftRight,
    Ampersand,
    Bar,
    Caret,
    Tilde,
    EqualEqual,
    NotEqual,
    Less,
    LessEqual,
    Greater,
    GreaterEqual,
    OpenParen,
    CloseParen,
    OpenBracket,
    CloseBracket,
    Comma,
    Colon,
}

impl Token {
    /// A token equal to this one.
    pub fn copy(&self, alloc: Global) -> Result<Token, Mem>
        ensures { IfOk result (λ token. token ≡ self.now) }
    {
        let kind = self.kind.copy(alloc)?;
        Ok(Token { at: self.at, kind })
    }
}

impl TokenKind {
    /// A kind equal to this one.
    pub fn copy(&self, alloc: Global) -> Result<TokenKind, Mem>
        ensures { IfOk result (λ kind. kind ≡ self.now) }
    {
        match self {
            TokenKind::Name(name) => Ok(TokenKind::Name(name.copy(alloc)?)),
            TokenKind::Number(value) => Ok(TokenKind::Number(*value)),
            TokenKind::Key(key) => Ok(TokenKind::Key(*key)),
            TokenKind::Sign(sign) => Ok(TokenKind::Sign(*sign)),
        }
    }
}

impl Key {
    /// This keyword again, as for the types that hold memory. It never fails.
    pub fn copy(&self, _alloc: Global) -> Result<Key, Mem>
        ensures { result ≡ Ok self.now }
    {
        Ok(*self)
    }
}

impl Sign {
    /// This symbol again, as for the types that hold memory. It never fails.
    pub fn copy(&self, _alloc: Global) -> Result<Sign, Mem>
        ensures { result ≡ Ok self.now }
    {
        Ok(*self)
    }
}
