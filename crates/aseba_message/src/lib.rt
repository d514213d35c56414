//! The frames in which nodes and tools talk: their bytes, and a reader that takes a stream of them
//! in any pieces.
#![tactic(auto)]

mod encoding;
mod frame;
mod law;
mod reader;

pub use encoding::encode;
pub use frame::Frame;
pub use law::{is_message, one_cut};
pub use reader::{Fed, FrameReader, Taken};
