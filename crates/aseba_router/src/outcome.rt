use crate::item::Item;
use aseba_words::List;

/// What a switch on one thread has done.
#[derive(Drop)]
pub struct Relay<I, O> {
    /// The items that were routed, in order.
    pub items: List<Item>,
    /// The links, in their order.
    pub links: List<(I, O)>,
    /// For each link the place of the item at which the first push for its session came back.
    pub full: List<Option<u64>>,
}
