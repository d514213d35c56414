use aseba_tree::{Placed, Source};
use aseba_words::List;

/// A source that keeps the rules of the language in its project.
#[derive(Debug, Drop)]
pub struct Checked {
    pub source: Source,
    /// The variables in the order of their cells: those of the node, then those of the source.
    pub places: List<Placed>,
    /// How many cells they take together.
    pub cells: u32,
}
