//! Projects as text: what a node is and which names its network shares, one line for each.
#![tactic(auto)]

mod defaults;
mod draft;
mod entry;
mod fault;
mod fields;
mod finding;
mod kind;
mod known;
mod plain;
mod reading;
mod spelling;

pub use defaults::{default_natives_are_known, default_project};
pub use fault::ProjectError;
pub use finding::native_line;
pub use plain::is_plain;
pub use reading::read_project;
pub use spelling::write_project;
