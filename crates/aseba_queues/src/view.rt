use std::collections::LinkedList;

/// What a pass of a queue knows. No value of it is made: it is for contracts alone.
pub struct View<T> {
    /// Its parts of the 1,024 that there are. A pass with all of them knows that its lists are all
    /// lists.
    pub parts: u64,
    /// Whether it is the one pass that works on the side of the one.
    pub owns: bool,
    /// The items on the side of the many, a list for each pass: its own, and those of the passes
    /// that it took in.
    pub many: LinkedList<LinkedList<T>>,
    /// The items on the side of the one.
    pub one: LinkedList<T>,
}
