use aseba_check::Placed;
use aseba_codegen::Image;
use aseba_words::List;

/// A compiled source.
#[derive(Debug, Drop)]
pub struct Program {
    /// The words, which are loaded at address 0, and the source line of each.
    pub image: Image,
    /// Where the variables lie: first the node's in the order of its description, then the
    /// source's in the order of their declarations.
    pub places: List<Placed>,
}
