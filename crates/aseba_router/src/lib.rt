//! The hub: sessions join it, say frames and leave it, and each gets what the others say. Here it is
//! a function of what happened; nothing in it knows of threads.
#![tactic(auto)]

mod config;
mod entry;
mod exchange;
mod item;
mod law;
mod memory_ports;
mod memory_queue;
mod outcome;
mod place;
mod ports;
mod pushing;
mod reading;
mod relaying;
mod router;
mod session;
mod stage;
mod step;
mod table;
mod turn;
mod turning;
mod wire;

pub use config::HubConfig;
pub use entry::Entry;
pub use item::Item;
pub use law::{owed_in_front, told_in_shares, told_whole};
pub use memory_ports::MemoryPorts;
pub use outcome::Relay;
pub use ports::Ports;
pub use relaying::relay;
pub use router::Router;
pub use session::Session;
pub use turn::Turn;
