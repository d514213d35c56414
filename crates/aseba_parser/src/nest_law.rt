//! A law of the nest of tokens. The function does nothing: what it ensures is the law.
ghost use Rattle.aseba_parser.specs.OneNest.{OneNest};

/// The nest of a token is one number: in each program that begins with the tokens up to it, it is
/// nested equally deep there.
pub fn nest_is_one()
    ensures { OneNest }
{}
