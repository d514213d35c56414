//! The chain of passes from the text of a source to its words.
#![tactic(auto)]

mod passes;
mod program;
mod reading;
mod refusal;

pub use passes::compile;
pub use program::Program;
pub use refusal::Refusal;
