//! Tests of the queues that threads share: on one thread, with passes that are split and joined,
//! with eight threads that push into one queue, and with one that pushes and one that pops.
#![tactic(auto)]

mod item;
#[cfg(test)]
mod one_thread;
mod producers;
mod relays;
#[cfg(test)]
mod threads;

pub use item::Sent;
pub use producers::exchange;
pub use relays::relay;
