/// One turn of the switch on one thread. A number is a link's place in the list, which is its port.
#[derive(Clone, Copy, Debug, PartialEq, Eq)]
pub enum Turn {
    /// The link's session joins.
    Open(u16),
    /// One frame is read from the link, and its session says it. Where none comes any more, the
    /// session leaves.
    Read(u16),
    /// The next item is routed.
    Route,
    /// The next entry of the port's queue is taken and written to the link.
    Write(u16),
}
