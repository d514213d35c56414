//! The debugger of a machine: it takes commands, and keeps the breakpoints at which the machine
//! stops. It takes no memory.
#![tactic(auto)]

mod command;
mod debug;
mod law;
mod reply;

pub use command::Command;
pub use debug::Debug;
pub use law::{at_most_sixteen, sixteen_breakpoints};
pub use reply::Reply;
