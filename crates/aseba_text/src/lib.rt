//! Lines, fields, numbers and names of text files: what projects, scripts, recordings and the lines
//! that tools print have in common.
#![tactic(auto)]

mod fields;
mod laws;
mod lines;
mod names;
mod numbers;
mod text;

pub use fields::{cut, first_field};
pub use laws::{cell_is_spelled, cut_is_at_a_blank, number_is_spelled};
pub use lines::{first_line, is_skipped};
pub use names::{is_printable, is_text};
pub use numbers::{cell, number, number_from};
pub use text::Text;
