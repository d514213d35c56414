ghost use Rattle.std.specs.Prelude.{◌≡◌, [], ◌∷◌, ◌++◌};
ghost use Rattle.aseba_describe.specs.Known as spec;

use crate::fault::LineFault;
use aseba_words::Name;
use indexmap::IndexSet;
use std::alloc::Global;
use std::marker::Model;

/// The names that were given so far to things that may not share one, in order.
#[derive(Drop)]
pub struct Known {
    names: IndexSet<Name>,
}

impl Model for Known {
    ghost use Rattle.std.specs.Prelude.{List, ℕ};

    ghost Value = { List (List ℕ) };

    ghost view = { λ known. known.names.keys };
}

impl Known {
    pub fn new(alloc: Global) -> Known
        ensures { result ≡ [] }
    {
        Known {
            names: IndexSet::new(alloc),
        }
    }

    /// Adds a name that isn't there.
    pub fn add(&mut self, name: Name) -> Result<(), LineFault>
        ensures { spec.Added self.old name self.new result }
    {
        match self.names.insert(name) {
            Ok(true) => Ok(()),
            Ok(false) => Err(LineFault::Bad),
            Err(_) => Err(LineFault::Mem),
        }
    }
}
