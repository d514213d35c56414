ghost use Rattle.std.specs.Prelude.{◌≡◌, ◌<◌, ◌^◌, ℕ, Option, option_map, IfOk, MatchResult};
ghost use Rattle.aseba_edge.specs.Counts.{Counts};
ghost use Rattle.aseba_edge.specs.Dialer.{Dialed, IsFresh, after_fault, after_link, is_refused};

use crate::link::{LinkIn, LinkOut};
use crate::poll::LinkPoll;
use aseba_words::Mem;
use std::alloc::Global;

/// A dial that gave no link.
#[derive(Clone, Copy, Debug, PartialEq, Eq)]
pub enum DialFault {
    /// There is no way to the address.
    Refused,
    /// Memory didn't suffice.
    Mem,
}

impl From<Mem> for DialFault {
    ghost use Rattle.aseba_edge.specs.declared.dialer.DialFault.{DialFault};

    ghost from_gives = { λ _ fault. fault ≡ DialFault.Mem };

    fn from(_error: Mem) -> DialFault {
        DialFault::Mem
    }
}

/// What opens links to addresses.
pub trait Dialer {
    type In: LinkIn;

    type Out: LinkOut;

    type Poll: LinkPoll;

    /// What it was asked for and gave, where that is told.
    ghost contents: { Self → Option Dialed };

    /// How many dials were refused.
    ghost faults: { Self → ℕ };

    /// Opens a link whose input waits for bytes.
    fn dial(&mut self, alloc: Global, address: &str) -> Result<(Self::In, Self::Out), DialFault>
        ensures fresh { IfOk result (λ link. IsFresh
            (Self.In.faults link.0) (Self.In.contents link.0) (Self.In.mark link.0)
            (Self.Out.faults link.1) (Self.Out.taken link.1) (Self.Out.mark link.1)) }
        ensures asked { MatchResult result
            (λ link. contents self.new ≡
            option_map (after_link address.now (Self.In.mark link.0)) (contents self.old))
            (λ fault. contents self.new ≡
            option_map (after_fault address.now fault) (contents self.old)) }
        ensures count { Counts (is_refused result) (faults self.old) (faults self.new) };

    /// Opens a link whose input is polled.
    fn dial_polled(
        &mut self,
        alloc: Global,
        address: &str,
    ) -> Result<(Self::Poll, Self::Out), DialFault>
        ensures fresh { IfOk result (λ link. IsFresh
            (Self.Poll.faults link.0) (Self.Poll.contents link.0) (Self.Poll.mark link.0)
            (Self.Out.faults link.1) (Self.Out.taken link.1) (Self.Out.mark link.1)) }
        ensures asked { MatchResult result
            (λ link. contents self.new ≡
            option_map (after_link address.now (Self.Poll.mark link.0)) (contents self.old))
            (λ fault. contents self.new ≡
            option_map (after_fault address.now fault) (contents self.old)) }
        ensures count { Counts (is_refused result) (faults self.old) (faults self.new) };

    /// The count fits its word.
    ghost bounds_faults: { (dialer : Self) → faults dialer < 2 ^ 64 };
}
