use crate::view::View;
use crossbeam_queue::protocol::{Join, Split};

/// How a pass gives a part to a new one, and how it takes another one in.
pub(crate) struct Parts;

impl<T> Split<View<T>> for Parts {
    ghost use Rattle.std.specs.Prelude.{[]};
    ghost use Rattle.aseba_queues.specs.Views.{lessened, working};

    ghost left = { lessened };

    ghost right = { λ v. working [] };
}

impl<T> Join<View<T>> for Parts {
    ghost use Rattle.aseba_queues.specs.Views.{both as joined, spent as nothing};

    ghost both = { joined };

    ghost spent = { nothing };
}
