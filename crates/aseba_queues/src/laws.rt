//! What follows once all passes of a queue are joined. The functions do nothing: what they ensure
//! is the law.

ghost use Rattle.aseba_queues.specs.Joined.{EachIsSo, LengthsAddUp, OneIsItself, PushedIsTaken, SharesMerge, TakenIsPushed};

/// Of an `InQueue`: what was popped, followed by what the queue holds, restricted to items that one
/// pass alone has pushed, is what that pass pushed of them.
#[tactic(auto, using(crate::proofs::JoinedLaws::taken_is_pushed))]
pub fn taken_is_pushed<T>()
    ensures { TakenIsPushed T }
{}

/// Of a `PortQueue` from which one pass popped: what that one popped, followed by what the queue
/// holds, is what the owner pushed.
pub fn pushed_is_taken<T>()
    ensures { PushedIsTaken T }
{}

/// What passes a test in a merge is a merge of what passes it in each list.
#[tactic(auto, using(crate::proofs::JoinedLaws::shares_merge))]
pub fn shares_merge<T>()
    ensures { SharesMerge T }
{}

/// A merge of one list is that list.
#[tactic(auto, using(crate::proofs::JoinedLaws::one_is_itself))]
pub fn one_is_itself<T>()
    ensures { OneIsItself T }
{}

/// A merge has as many items as its lists together.
#[tactic(auto, using(crate::proofs::JoinedLaws::lengths_add_up))]
pub fn lengths_add_up<T>()
    ensures { LengthsAddUp T }
{}

/// What is so of each item of the lists is so of each item of their merge.
pub fn each_is_so<T>()
    ensures { EachIsSo T }
{}
