ghost use Rattle.aseba_node.specs.Worked.{NodeAddressed};

/// A node answers what is for it, with its own id, and nothing that is for another node.
pub fn node_addressed()
    ensures { NodeAddressed }
{}
