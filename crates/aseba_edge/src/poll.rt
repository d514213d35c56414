ghost use Rattle.std.specs.Prelude.{◌≡◌, ◌<◌, ◌^◌, ℕ, length, Option, option_map, is_some, IfSome};
ghost use Rattle.aseba_edge.specs.Counts.{Counts};

use aseba_words::List;

/// What a poll of a link answers.
#[derive(Clone, Copy, Debug, PartialEq, Eq)]
pub enum Polled {
    /// So many bytes came, at least one.
    Piece(usize),
    /// Nothing has come yet.
    NotYet,
    /// Nothing will come any more.
    Ended,
    /// The link failed.
    Failed,
}

/// An answer that a polled link has given or has left: bytes, at least one, or that none have come
/// yet.
#[derive(Debug, Drop)]
pub enum PollAnswer {
    Bytes(List<u8>),
    Later,
}

/// The end of a link from which bytes come, for one who doesn't wait for them.
pub trait LinkPoll: Drop {
    ghost use Rattle.aseba_edge.specs.Link.{Input, IsInRoom, IsPolled, after_poll, is_failed, next_given};
    ghost use Rattle.aseba_edge.specs.declared.poll.PollAnswer.{PollAnswer};

    /// What it has given and has left, where that is told.
    ghost contents: { Self → Option (Input PollAnswer) };

    /// By what it is known, where its contents are told: its output has the same mark.
    ghost mark: { Self → Option ℕ };

    /// How many polls have failed.
    ghost faults: { Self → ℕ };

    /// Takes what has come into the front of a buffer. It takes no memory.
    fn poll(&mut self, buf: &mut [u8]) -> Polled
        requires { 0 < length buf.old }
        ensures fits { IsInRoom (length buf.old) result }
        ensures answer { IfSome (contents self.old) (λ input.
            IsPolled (next_given (length buf.old) input.left) result buf.new) }
        ensures given { contents self.new ≡
            option_map (after_poll (length buf.old) result) (contents self.old) }
        ensures mark { mark self.new ≡ mark self.old }
        ensures count { Counts (is_failed result) (faults self.old) (faults self.new) };

    /// Where the contents are told, so is the mark.
    ghost tells_mark: { (link : Self) → is_some (mark link) ≡ is_some (contents link) };

    /// The count fits its word.
    ghost bounds_faults: { (link : Self) → faults link < 2 ^ 64 };
}
