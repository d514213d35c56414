//! A law of the tokens that spell a tree. The function does nothing: what it ensures is the law.

ghost use Rattle.aseba_tree.specs.Nest.{EachTokenHasNest};

/// Each token of a program has a nest.
pub fn each_token_has_nest()
    ensures { EachTokenHasNest }
{}
