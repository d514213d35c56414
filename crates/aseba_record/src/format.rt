use aseba_tree::Sized;
use aseba_words::List;

/// The format of a recording.
#[derive(Debug, Drop)]
pub enum Format {
    /// Format 1: each line has an event's number and its bytes.
    Old,
    /// Format 2: each line has an event's name and its words. The names are those of the recording's
    /// own head.
    New(List<Sized>),
}
