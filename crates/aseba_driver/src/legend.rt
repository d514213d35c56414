ghost use Rattle.std.specs.Prelude.{◌≡◌, ◌≤◌, length, map, slice_index};
ghost use Rattle.aseba_tree.specs.View.{placed_view};
ghost use Rattle.aseba_driver.specs.Driven.{layout_by};

use aseba_tree::{Placed, Project};

/// What gives names and lines to that which a machine does.
#[derive(Clone, Copy, Debug)]
pub struct Legend<'a> {
    /// The project of the machine's node.
    pub project: &'a Project,
    /// Where the variables lie: first the node's in the order of its description, then the
    /// program's.
    pub places: &'a [Placed],
    /// The number of their cells. Temporaries lie behind them.
    pub cells: u16,
    /// The source line of each word of the code.
    pub lines: &'a [u32],
}

impl Legend<'_> {
    /// The source line of a place of the code, and 0 behind it.
    pub fn line_of(&self, pc: u16) -> u32
        ensures { result ≡ slice_index self.now.lines.now pc }
    {
        match self.lines.get(usize::from(pc)) {
            Some(line) => *line,
            None => 0,
        }
    }

    /// The places of the program's own variables.
    pub fn own_places(&self) -> &[Placed]
        requires { length self.now.project.now.node.variables ≤ length self.now.places.now }
        ensures { map placed_view result.now ≡ (layout_by self.now).own }
    {
        &self.places[self.project.node.variables.as_slice().len()..]
    }
}
