//! All that the program `aseba` does, as one call over the objects of the outside.
#![tactic(auto)]

mod address;
mod command;
mod compile;
mod dump;
mod entries;
mod file;
mod frames;
mod given;
mod natives;
mod node;
mod project;
mod putting;
mod ran;
mod running;
pub mod script;
mod sim;
mod status;
mod telling;
mod top;
mod words;

pub use aseba_compile::Refusal;
pub use ran::Ran;
pub use status::Status;
pub use telling::tell;
pub use top::run;
