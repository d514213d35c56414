/// How large a machine is, and where its named cells lie.
#[derive(Clone, Copy, Debug, PartialEq, Eq)]
pub struct Shape {
    /// Words of code.
    pub code: u16,
    /// Cells.
    pub cells: u16,
    /// Values that the stack has room for.
    pub stack: u16,
    /// The address of the cell `_id`, which holds the node's id.
    pub id: Option<u16>,
    /// The address of `event.source`, which holds the sender of the event last begun.
    pub source: Option<u16>,
    /// The first address of `event.args`, which hold that event's arguments.
    pub args_at: u16,
    /// The number of these cells, 0 where there are none.
    pub args_len: u16,
}
