ghost use Rattle.aseba_dump.specs.Samples.{EventLines, DescriptionLines, NodeLines, RequestLines};

/// Lines of each message that were worked by hand: of events, which may say nothing, of the
/// messages by which a node describes itself, of its other messages, and of those to a node.
pub fn worked_lines()
    ensures events { EventLines }
    ensures descriptions { DescriptionLines }
    ensures nodes { NodeLines }
    ensures requests { RequestLines }
{}
