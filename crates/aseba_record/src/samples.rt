ghost use Rattle.aseba_record.specs.Samples.{TextsOfBoth, TextsThatAreRead, FirstBadLines};

/// Recordings that were worked by hand: what is written in both formats, what is read, and first bad
/// lines.
pub fn worked_recordings()
    ensures written { TextsOfBoth }
    ensures read { TextsThatAreRead }
    ensures bad { FirstBadLines }
{}
