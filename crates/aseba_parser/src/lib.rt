//! The tokens of a source as its tree.
#![tactic(auto)]

mod block;
mod counted;
mod decl;
mod error;
mod events;
mod expr;
mod fault;
mod lists;
mod nest_law;
mod nodes;
mod operators;
mod parser;
mod program;
mod simple;
mod tokens;

pub use error::SyntaxError;
pub use nest_law::nest_is_one;
pub use parser::parse;
