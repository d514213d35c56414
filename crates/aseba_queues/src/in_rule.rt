use crate::view::View;
use crossbeam_queue::protocol::{Lesson, Outcome, Protocol};

/// The rule of a queue into which many push, and from which the one pass that came with it pops:
/// what was popped, followed by what the queue holds, is a merge of all that was pushed. At most
/// 2^61 items are popped.
pub struct InRule;

impl<T> Protocol<T, View<T>> for InRule {
    ghost use Rattle.aseba_queues.specs.Holds.{InHolds};
    ghost use Rattle.aseba_queues.specs.Views.{first as beginning};

    ghost holds = { InHolds };

    ghost first = { beginning };
}

/// A push: the item stands at the end of what the pass has pushed.
pub(crate) struct InPush;

impl<T> Outcome<T, View<T>> for InPush {
    ghost use Rattle.std.specs.Prelude.{◌≡◌};
    ghost use Rattle.aseba_queues.specs.Views.{noted};

    ghost then = { λ v x w. w ≡ noted x v };
}

impl<T> Lesson<T, View<T>> for InPush {
    ghost use Rattle.aseba_queues.specs.Knows.{InKnows};

    ghost fact = { InKnows };
}

/// A pop: the item stands at the end of what the owner has popped.
pub(crate) struct InPop;

impl<T> Outcome<T, View<T>> for InPop {
    ghost use Rattle.std.specs.Prelude.{◌≡◌};
    ghost use Rattle.aseba_queues.specs.Views.{owned};

    ghost then = { λ v x w. w ≡ owned x v };
}

impl<T> Lesson<T, View<T>> for InPop {
    ghost use Rattle.aseba_queues.specs.Knows.{InKnows};

    ghost fact = { InKnows };
}
