//! What names mean, found in one step.
ghost use Rattle.std.specs.Prelude.{◌≡◌, OnOk};
ghost use Rattle.aseba_check.specs.Looked.{looked, nothing, with_value, first_value};

use aseba_words::{Mem, Name};
use indexmap::IndexMap;
use std::alloc::Global;

/// A value for each of some names. The check and the expansion of a source look its names up in
/// such tables.
#[derive(Drop)]
pub struct Table<V> {
    values: IndexMap<Name, V>,
}

impl<V: Copy> Table<V> {
    /// No names. It takes no memory.
    pub fn new(alloc: Global) -> Table<V>
        ensures { looked result ≡ nothing }
    {
        Table {
            values: IndexMap::new(alloc),
        }
    }

    /// The value of a name, where it has one.
    pub fn find(&self, name: &Name) -> Option<V>
        ensures { result ≡ looked self.now name.now }
    {
        self.values.get(name).copied()
    }

    /// Gives a name this value, in the place of one that it had.
    pub fn set(&mut self, alloc: Global, name: &Name, value: V) -> Result<(), Mem>
        ensures { OnOk result (looked self.new ≡ with_value (looked self.old) name.now value) }
    {
        let key = name.copy(alloc)?;
        self.values.insert(key, value)?;
        Ok(())
    }

    /// Gives a name this value, unless it has one.
    pub fn set_first(&mut self, alloc: Global, name: &Name, value: V) -> Result<(), Mem>
        ensures { OnOk result (looked self.new ≡ first_value (looked self.old) name.now value) }
    {
        match self.find(name) {
            Some(_) => Ok(()),
            None => self.set(alloc, name, value),
        }
    }
}
