//! Projects as text.
mod bad_lines;
mod limits;
mod texts;
