//! Scripts, as they are read from their text.

pub use aseba_driver::{Act, Entry, ScriptError, read_script};
