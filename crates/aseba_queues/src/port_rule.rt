use crate::view::View;
use crossbeam_queue::protocol::{Lesson, Outcome, Protocol};

/// The rule of a queue into which the one pass that came with it pushes, and from which many pop:
/// what was pushed is a merge of all that was popped, followed by what the queue holds.
pub struct PortRule;

impl<T> Protocol<T, View<T>> for PortRule {
    ghost use Rattle.aseba_queues.specs.Holds.{PortHolds};
    ghost use Rattle.aseba_queues.specs.Views.{first as beginning};

    ghost holds = { PortHolds };

    ghost first = { beginning };
}

/// A push: the item stands at the end of what the owner has pushed.
pub(crate) struct PortPush;

impl<T> Outcome<T, View<T>> for PortPush {
    ghost use Rattle.std.specs.Prelude.{◌≡◌};
    ghost use Rattle.aseba_queues.specs.Views.{owned};

    ghost then = { λ v x w. w ≡ owned x v };
}

impl<T> Lesson<T, View<T>> for PortPush {
    ghost use Rattle.aseba_queues.specs.Knows.{PortKnows};

    ghost fact = { PortKnows };
}

/// A pop: the item stands at the end of what the pass has popped.
pub(crate) struct PortPop;

impl<T> Outcome<T, View<T>> for PortPop {
    ghost use Rattle.std.specs.Prelude.{◌≡◌};
    ghost use Rattle.aseba_queues.specs.Views.{noted};

    ghost then = { λ v x w. w ≡ noted x v };
}

impl<T> Lesson<T, View<T>> for PortPop {
    ghost use Rattle.aseba_queues.specs.Knows.{PortKnows};

    ghost fact = { PortKnows };
}
