ghost use Rattle.std.specs.Prelude.{◌≡◌, ◌<◌, ◌≤◌, ◌^◌, ℕ, List, [], length, take, Option, option_map, is_some, is_err, IfSome, IfOk, IfErr, OnOk, OnErr};
ghost use Rattle.aseba_edge.specs.Counts.{Counts};
ghost use Rattle.aseba_edge.specs.Link.{Input, after_read, next_bytes};
ghost use Rattle.aseba_edge.specs.Sink.{Took, TookFewer};

use crate::sink::PutFault;

/// A read of a link that failed.
#[derive(Clone, Copy, Debug, PartialEq, Eq)]
pub struct LinkFault;

/// The end of a link from which bytes come.
pub trait LinkIn: Send + Drop {
    /// What it has given and has left, where that is told.
    ghost contents: { Self → Option (Input (List ℕ)) };

    /// By what it is known, where its contents are told: its output has the same mark.
    ghost mark: { Self → Option ℕ };

    /// How many reads have failed.
    ghost faults: { Self → ℕ };

    /// Reads into the front of a buffer, and answers how many bytes came: none are the end, unless
    /// the buffer has no room. It takes no memory.
    fn read(&mut self, buf: &mut [u8]) -> Result<usize, LinkFault>
        ensures fits { IfOk result (λ count. count ≤ length buf.old) }
        ensures bytes { IfOk result (λ count. IfSome (contents self.old) (λ input.
            take count buf.new ≡ next_bytes (length buf.old) input.left)) }
        ensures end { IfOk result (λ count. count ≡ 0 → 0 < length buf.old →
            IfSome (contents self.old) (λ input. input.left ≡ [])) }
        ensures given { OnOk result
            (contents self.new ≡ option_map (after_read (length buf.old)) (contents self.old)) }
        ensures kept { OnErr result (contents self.new ≡ contents self.old) }
        ensures mark { mark self.new ≡ mark self.old }
        ensures count { Counts (is_err result) (faults self.old) (faults self.new) };

    /// Where the contents are told, so is the mark.
    ghost tells_mark: { (link : Self) → is_some (mark link) ≡ is_some (contents link) };

    /// The count fits its word.
    ghost bounds_faults: { (link : Self) → faults link < 2 ^ 64 };
}

/// The end of a link that takes bytes.
pub trait LinkOut: Send + Drop {
    /// The bytes taken so far, where that is told.
    ghost taken: { Self → Option (List ℕ) };

    /// By what it is known, where the bytes are told: its input has the same mark.
    ghost mark: { Self → Option ℕ };

    /// How many puts have failed.
    ghost faults: { Self → ℕ };

    /// Takes all of a piece, or at a fault its first bytes. It takes no memory, and a put of an
    /// empty piece never fails.
    fn put(&mut self, piece: &[u8]) -> Result<(), PutFault>
        ensures whole { OnOk result (Took (taken self.old) piece.now (taken self.new)) }
        ensures part { IfErr result (λ fault.
            TookFewer fault.taken (taken self.old) piece.now (taken self.new)) }
        ensures mark { mark self.new ≡ mark self.old }
        ensures count { Counts (is_err result) (faults self.old) (faults self.new) };

    /// Asks that the link be closed on both sides. It takes no memory.
    fn hang_up(&mut self)
        ensures taken { taken self.new ≡ taken self.old }
        ensures mark { mark self.new ≡ mark self.old }
        ensures count { faults self.new ≡ faults self.old };

    /// Where the bytes taken are told, so is the mark.
    ghost tells_mark: { (link : Self) → is_some (mark link) ≡ is_some (taken link) };

    /// The count fits its word.
    ghost bounds_faults: { (link : Self) → faults link < 2 ^ 64 };
}
