//! Frames as lines that a person reads.
#![tactic(auto)]

mod events;
mod fields;
mod line;
mod messages;
mod samples;
mod timed;

pub use fields::{push_bytes, push_signed_word};
pub use line::line_of;
pub use samples::worked_lines;
pub use timed::Timed;
