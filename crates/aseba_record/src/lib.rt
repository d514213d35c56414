//! Recordings: the events of a network as text, each with its time, and what plays them again.
#![tactic(auto)]

mod bytes;
mod entries;
mod events;
mod fault;
mod fields;
mod format;
mod head;
mod laws;
mod player;
mod reading;
mod samples;
mod spelling;
mod words;

pub use events::{is_entry, is_event};
pub use fault::RecordError;
pub use laws::{first_line_tells, recorded_is_read, sends_in_order};
pub use player::{Next, Player};
pub use reading::{is_new, read_recording};
pub use samples::worked_recordings;
pub use spelling::{record_entry, record_head, record_line};
