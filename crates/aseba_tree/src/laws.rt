ghost use Rattle.aseba_tree.specs.Laws.{StopsStoreNothing, IdleStaysIdle, KillsLeaveNothing, FalseBeatsLeaveAll};

/// A stop of a handler leaves the cells as they were, but for what was held and what a native stored before it.
pub fn stops_store_nothing()
    ensures { StopsStoreNothing }
{}

/// A step of an idle or paused state changes nothing.
pub fn idle_stays_idle()
    ensures { IdleStaysIdle }
{}

/// A kill leaves no work of the dead handler and applies what was held.
pub fn kills_leave_nothing()
    ensures { KillsLeaveNothing }
{}

/// Ticks without a step and without a script leave the state as it was.
pub fn false_beats_leave_all()
    ensures { FalseBeatsLeaveAll }
{}
