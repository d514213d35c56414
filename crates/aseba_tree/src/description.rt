ghost use Rattle.std.specs.Prelude.{◌≡◌, IfOk};

use crate::copies::copies;
use aseba_words::{List, Mem, Name};
use std::alloc::Global;

/// What a node says of itself.
#[derive(Debug, Drop)]
pub struct Description {
    pub name: Name,
    /// How many words of code it holds.
    pub code: u16,
    /// How many cells its stack has.
    pub stack: u16,
    /// How many cells its variables share.
    pub cells: u16,
    /// Its named variables, from the first cell on.
    pub variables: List<Sized>,
    pub locals: List<Local>,
    pub natives: List<Native>,
}

/// A name with a number of cells: a named variable or a global event.
#[derive(Debug, Drop)]
pub struct Sized {
    pub name: Name,
    pub size: u16,
}

/// An event that arises in the node itself.
#[derive(Debug, Drop)]
pub struct Local {
    pub name: Name,
    /// What it means, for a reader.
    pub text: Name,
}

/// A native function.
#[derive(Debug, Drop)]
pub struct Native {
    pub name: Name,
    /// What it does, for a reader.
    pub text: Name,
    pub params: List<Param>,
}

/// A parameter of a native function.
#[derive(Debug, Drop)]
pub struct Param {
    /// Its number of cells, or a template below 0: parameters with the same template have one
    /// length, which the call gives.
    pub size: i16,
    pub name: Name,
}

impl Description {
    /// A description equal to this one.
    pub fn copy(&self, alloc: Global) -> Result<Description, Mem>
        ensures { IfOk result (λ node. node ≡ self.now) }
    {
        let name = self.name.copy(alloc)?;
        let variables = copies(alloc, &self.variables, |variable| variable.copy(alloc))?;
        let locals = copies(alloc, &self.locals, |local| local.copy(alloc))?;
        let natives = copies(alloc, &self.natives, |native| native.copy(alloc))?;
        Ok(Description {
            name,
            code: self.code,
            stack: self.stack,
            cells: self.cells,
            variables,
            locals,
            natives,
        })
    }
}

impl Sized {
    /// A name and size equal to these.
    pub fn copy(&self, alloc: Global) -> Result<Sized, Mem>
        ensures { IfOk result (λ sized. sized ≡ self.now) }
    {
        let name = self.name.copy(alloc)?;
        Ok(Sized {
            name,
            size: self.size,
        })
    }
}

impl Local {
    /// A local event equal to this one.
    pub fn copy(&self, alloc: Global) -> Result<Local, Mem>
        ensures { IfOk result (λ local. local ≡ self.now) }
    {
        let name = self.name.copy(alloc)?;
        let text = self.text.copy(alloc)?;
        Ok(Local { name, text })
    }
}

impl Native {
    /// A native equal to this one.
    pub fn copy(&self, alloc: Global) -> Result<Native, Mem>
        ensures { IfOk result (λ native. native ≡ self.now) }
    {
        let name = self.name.copy(alloc)?;
        let text = self.text.copy(alloc)?;
        let params = copies(alloc, &self.params, |param| param.copy(alloc))?;
        Ok(Native { name, text, params })
    }
}

impl Param {
    /// A parameter equal to this one.
    pub fn copy(&self, alloc: Global) -> Result<Param, Mem>
        ensures { IfOk result (λ param. param ≡ self.now) }
    {
        let name = self.name.copy(alloc)?;
        Ok(Param {
            size: self.size,
            name,
        })
    }
}
