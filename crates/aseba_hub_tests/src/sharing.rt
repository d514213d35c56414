//! What threads may share, and hand to one another.
use aseba_router::{Entry, Item, Router, Session};

/// Asks for both of a type.
fn is_shared<T: Send + Sync>() {}

#[test]
fn sessions_items_entries_and_routers(_rt: HostRuntime) {
    is_shared::<Session>();
    is_shared::<Item>();
    is_shared::<Entry>();
    is_shared::<Router>();
}
