//! Messages with their types: what the payload of each frame says, both ways.
#![tactic(auto)]

mod copying;
mod decoding;
mod encoding;
mod error;
mod fault;
mod law;
mod payload;
mod reading;
mod rows;
mod writing;

pub use decoding::decode;
pub use encoding::to_frame;
pub use error::PayloadError;
pub use law::{native_length, one_meaning, payload_is_said};
pub use payload::Payload;
