ghost use Rattle.std.specs.Prelude.{◌<◌, ◌^◌, ℕ, List, Option, OnOk, IfErr, is_err};
ghost use Rattle.aseba_edge.specs.Counts.{Counts};
ghost use Rattle.aseba_edge.specs.Sink.{Took, TookFewer};

/// A put that failed, with the number of bytes that were taken before it did.
#[derive(Clone, Copy, Debug, PartialEq, Eq)]
pub struct PutFault {
    /// How many of the piece's first bytes were taken: fewer than it has.
    pub taken: usize,
}

/// What takes bytes in order.
pub trait Sink {
    /// The bytes taken so far, where that is told.
    ghost taken: { Self → Option (List ℕ) };

    /// How many puts have failed.
    ghost faults: { Self → ℕ };

    /// Takes all of a piece, or at a fault its first bytes. It takes no memory, and a put of an
    /// empty piece never fails.
    fn put(&mut self, piece: &[u8]) -> Result<(), PutFault>
        ensures whole { OnOk result (Took (taken self.old) piece.now (taken self.new)) }
        ensures part { IfErr result (λ fault.
            TookFewer fault.taken (taken self.old) piece.now (taken self.new)) }
        ensures count { Counts (is_err result) (faults self.old) (faults self.new) };

    /// The count fits its word.
    ghost bounds_faults: { (sink : Self) → faults sink < 2 ^ 64 };
}
