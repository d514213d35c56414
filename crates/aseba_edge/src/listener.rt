ghost use Rattle.std.specs.Prelude.{◌≡◌, ◌<◌, ◌^◌, ℕ, IfSome, OnErr, OnOk, Option, is_err, option_map};
ghost use Rattle.aseba_edge.specs.Counts.{Counts};
ghost use Rattle.aseba_edge.specs.Dialer.{IsFresh};

use crate::link::{LinkIn, LinkOut};
use std::alloc::Global;

/// A listener that could not be opened.
#[derive(Clone, Copy, Debug, PartialEq, Eq)]
pub struct ListenFault;

/// What a listener answers when it is asked for the next link.
#[derive(Drop)]
pub enum Accepted<In, Out> {
    /// Both ends of a link.
    Link(In, Out),
    /// No link will come any more.
    NoMore,
    /// The listener failed.
    Failed,
    /// Memory didn't suffice.
    Mem,
}

/// What waits at a port for links that others open.
pub trait Listener: Drop {
    ghost use Rattle.aseba_edge.specs.Listener.{IfLink, IsNext, Linked, Listened, after_accept, after_back, after_open, is_failed};

    type In: LinkIn;

    type Out: LinkOut;

    /// What it was opened at, has left, gave and got back, where that is told.
    ghost contents: { Self → Option Listened };

    /// How many calls have failed.
    ghost faults: { Self → ℕ };

    /// Waits at a port from now on.
    fn open(&mut self, port: u16) -> Result<(), ListenFault>
        ensures opened { OnOk result
            (contents self.new ≡ option_map (after_open port) (contents self.old)) }
        ensures kept { OnErr result (contents self.new ≡ contents self.old) }
        ensures count { Counts (is_err result) (faults self.old) (faults self.new) };

    /// Gives the next link, and waits for it where none has come yet.
    fn accept(&mut self, alloc: Global) -> Accepted<Self::In, Self::Out>
        ensures fresh { IfLink result (λ input output. IsFresh
            (Self.In.faults input) (Self.In.contents input) (Self.In.mark input)
            (Self.Out.faults output) (Self.Out.taken output) (Self.Out.mark output)) }
        ensures next { IfSome (contents self.old) (IsNext (λ input output. record {
          mark = Self.In.mark input;
          input = Self.In.contents input;
          taken = Self.Out.taken output;
        }) result) }
        ensures given { contents self.new ≡
            option_map (after_accept Self.In.mark result) (contents self.old) }
        ensures count { Counts (is_failed result) (faults self.old) (faults self.new) };

    /// Takes a link back that it gave. It takes no memory.
    fn back(&mut self, input: Self::In, output: Self::Out)
        ensures back { contents self.new ≡ option_map (after_back record {
          mark = Self.In.mark input;
          input = Self.In.contents input;
          taken = Self.Out.taken output;
        }) (contents self.old) }
        ensures count { faults self.new ≡ faults self.old };

    /// The count fits its word.
    ghost bounds_faults: { (listener : Self) → faults listener < 2 ^ 64 };
}
