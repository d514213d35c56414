use aseba_tree::{Const, Local, Native, Sized};
use aseba_words::Name;

/// What a line of a project says.
#[derive(Debug, Drop)]
pub enum Entry {
    /// The node's name.
    Node(Name),
    /// How many words of code it holds.
    Code(u16),
    /// How many cells its variables share.
    Vars(u16),
    /// How many cells its stack has.
    Stack(u16),
    /// Its number in the network.
    Id(u16),
    Variable(Sized),
    Local(Local),
    Native(Native),
    Event(Sized),
    Const(Const),
}
