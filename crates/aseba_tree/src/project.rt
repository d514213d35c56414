ghost use Rattle.std.specs.Prelude.{◌≡◌, IfOk};

use crate::copies::copies;
use crate::description::{Description, Sized};
use aseba_words::{List, Mem, Name};
use std::alloc::Global;

/// What a source is compiled for: a node, its id, and the names that its network shares.
#[derive(Debug, Drop)]
pub struct Project {
    pub node: Description,
    pub id: u16,
    /// The global events, by their numbers.
    pub events: List<Sized>,
    pub consts: List<Const>,
}

/// A named constant.
#[derive(Debug, Drop)]
pub struct Const {
    pub name: Name,
    pub value: i16,
}

impl Project {
    /// A project equal to this one.
    pub fn copy(&self, alloc: Global) -> Result<Project, Mem>
        ensures { IfOk result (λ project. project ≡ self.now) }
    {
        let node = self.node.copy(alloc)?;
        let events = copies(alloc, &self.events, |event| event.copy(alloc))?;
        let consts = copies(alloc, &self.consts, |constant| constant.copy(alloc))?;
        Ok(Project {
            node,
            id: self.id,
            events,
            consts,
        })
    }
}

impl Const {
    /// A constant equal to this one.
    pub fn copy(&self, alloc: Global) -> Result<Const, Mem>
        ensures { IfOk result (λ constant. constant ≡ self.now) }
    {
        let name = self.name.copy(alloc)?;
        Ok(Const {
            name,
            value: self.value,
        })
    }
}
