//! The text of a source as tokens.
#![tactic(auto)]

mod bytes;
mod comments;
mod error;
mod lexer;
mod numbers;
mod places;
mod signs;
mod words;

pub use error::LexError;
pub use lexer::lex;
pub use places::end_of;
