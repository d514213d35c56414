//! The machine that runs a robot's code: words, cells, a stack and a counter. An event that arrives
//! kills the handler that runs; a fault ends it and pauses the machine.
#![tactic(auto)]

mod arrival;
pub mod instruction;
mod lists;
mod machine;
mod opcode;
mod refusals;
mod shape;
mod stack;
mod tick;

pub use arrival::Arrival;
pub use machine::Machine;
pub use refusals::{OutOfCells, OutOfCode};
pub use shape::Shape;
pub use tick::{NodeFault, Notice, Tick};
