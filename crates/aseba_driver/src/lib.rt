//! What drives a node's machine: scripts, read from their text, and the run through a script, which is
//! told line by line.
#![tactic(auto)]

mod acting;
mod driving;
mod entry;
mod fault;
mod fields;
mod laws;
mod legend;
mod moment;
mod names;
mod putting;
mod reading;
mod report;
mod ticking;

pub use acting::act;
pub use driving::drive;
pub use entry::{Act, Entry};
pub use fault::ScriptError;
pub use laws::lines_are_spelled;
pub use legend::Legend;
pub use moment::Moment;
pub use putting::{Unwritten, put_text};
pub use reading::read_script;
pub use ticking::{advance, tick};
