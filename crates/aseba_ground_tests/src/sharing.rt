//! What threads may share, and hand to one another.
use aseba_message::Frame;
use aseba_words::{List, Name};

/// Asks for both of a type.
fn is_shared<T: Send + Sync>() {}

#[test]
fn lists_names_and_frames(_rt: HostRuntime) {
    is_shared::<List<u8>>();
    is_shared::<Name>();
    is_shared::<Frame>();
}
