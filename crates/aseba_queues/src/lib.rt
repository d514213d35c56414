//! Queues that threads share, each under a rule that holds at every step: nothing is lost, doubled
//! or invented. `InQueue` is for many that push and one that pops, `PortQueue` for one that pushes
//! and others that pop. A thread works with a pass, which has no bytes. What the pass knows is its
//! view, which contracts alone see. The laws are functions with an empty body, so that a check
//! proves what they say.
#![tactic(auto)]

mod in_queue;
mod in_rule;
mod laws;
mod parts;
mod port_queue;
mod port_rule;
mod view;

pub use in_queue::{InPass, InQueue};
pub use in_rule::InRule;
pub use laws::{
    each_is_so, lengths_add_up, one_is_itself, pushed_is_taken, shares_merge, taken_is_pushed,
};
pub use port_queue::{PortPass, PortQueue};
pub use port_rule::PortRule;
pub use view::View;
