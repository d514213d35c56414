//! A node of the network: a machine that is loaded, asked and debugged by messages, and its session
//! on a link.
#![tactic(auto)]

mod cells;
mod law;
mod link;
mod node;
mod outbox;
mod parts;

pub use law::node_addressed;
pub use link::{SessionEnd, session};
pub use node::Node;
