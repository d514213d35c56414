use crate::session::Session;
use aseba_message::Frame;
use std::alloc::Global;
use std::sync::Arc;

/// One thing that happens to a hub. All that happens is one list of items.
#[derive(Drop)]
pub enum Item {
    /// A session is there from now on.
    Join(Session),
    /// A session says a frame, which its receivers share.
    Said(Session, Arc<Frame, Global>),
    /// A session is no longer there.
    Leave(Session),
}
