//! What the system meets of the outside: files, sinks, links and the ways to get them, and a clock.
//! Each is a trait that says what a call answers, and that a fault is never the caller's doing: a
//! count of faults, which nobody but the object itself can raise, rises with each.
#![tactic(auto)]

mod clock;
mod dialer;
mod files;
mod gate;
mod link;
mod listener;
mod memory_clock;
mod memory_dialer;
mod memory_files;
mod memory_in;
mod memory_link;
mod memory_listener;
mod memory_out;
mod memory_poll;
mod memory_sink;
mod plan;
mod poll;
mod poll_tape;
mod polled_socket;
mod reading;
mod reserved;
mod sink;
mod system_clock;
mod system_dialer;
mod system_files;
mod system_listener;
mod tape;
mod tcp_in;
mod tcp_out;
mod tcp_poll;
mod turn;
mod watched;
mod writer_sink;

pub use clock::Clock;
pub use dialer::{DialFault, Dialer};
pub use files::{FileAnswer, Files};
pub use link::{LinkFault, LinkIn, LinkOut};
pub use listener::{Accepted, ListenFault, Listener};
pub use memory_clock::MemoryClock;
pub use memory_dialer::MemoryDialer;
pub use memory_files::{MemoryFile, MemoryFiles};
pub use memory_in::MemoryIn;
pub use memory_link::{LinkScript, MemoryLink, MemoryPolledLink};
pub use memory_listener::{MemoryEnds, MemoryListener};
pub use memory_out::MemoryOut;
pub use memory_poll::MemoryPoll;
pub use memory_sink::MemorySink;
pub use poll::{LinkPoll, PollAnswer, Polled};
pub use sink::{PutFault, Sink};
pub use system_clock::SystemClock;
pub use system_dialer::SystemDialer;
pub use system_files::{SystemFiles, read_to_limit};
pub use system_listener::SystemListener;
pub use tcp_in::TcpIn;
pub use tcp_out::TcpOut;
pub use tcp_poll::TcpPoll;
pub use writer_sink::WriterSink;
