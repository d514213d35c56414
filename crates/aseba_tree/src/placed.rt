use aseba_words::Name;

/// A variable, with the address of its first cell and its number of cells.
#[derive(Debug, Drop)]
pub struct Placed {
    pub name: Name,
    pub start: u16,
    pub size: u16,
}
