/// What the tests put into a queue: which port put it, and which of that port's items it is.
#[derive(Clone, Copy, Debug, PartialEq, Eq)]
pub struct Sent {
    pub port: u8,
    pub number: u32,
}
