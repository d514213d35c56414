//! The natives: the fourteen functions on arrays of cells that a robot's program can call.
#![tactic(auto)]

mod argbounds;
mod arithmetic;
mod array;
mod call;
mod cellwise;
mod dot;
mod end;
mod operation;
mod stat;

pub use call::native;
pub use end::NativeEnd;
