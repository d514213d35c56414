use crate::session::Session;
use aseba_message::Frame;
use std::alloc::Global;
use std::sync::Arc;

/// What a port's queue holds.
#[derive(Drop)]
pub enum Entry {
    /// A frame for the session of the port.
    Frame(Arc<Frame, Global>),
    /// Nothing follows for this session.
    End(Session),
}
