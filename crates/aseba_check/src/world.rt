//! What the statements of a source may name.
ghost use Rattle.std.specs.Prelude.{◌≡◌};
ghost use Rattle.std.specs.Option.{option_copied};
ghost use Rattle.aseba_check.specs.Statements as told;

use crate::facts::Meaning;
use crate::table::Table;
use aseba_tree::Native;
use aseba_words::Name;

/// Constants and variables, the project's events and natives, and the subroutines.
#[derive(Drop)]
pub struct World<'a> {
    pub names: Table<Meaning>,
    /// The size of each global event, and nothing more of each local one.
    pub events: Table<Option<u64>>,
    /// The place of each native's name in the list.
    pub native_places: Table<usize>,
    pub natives: &'a [Native],
    /// The place of each subroutine among the parts.
    pub subs: Table<usize>,
}

impl World<'_> {
    pub fn native(&self, name: &Name) -> Option<&Native>
        ensures { option_copied result ≡ (told.known_of self.now).native name.now }
    {
        match self.native_places.find(name) {
            Some(place) => self.natives.get(place),
            None => None,
        }
    }

    /// The size of a global event.
    pub fn event_size(&self, name: &Name) -> Option<u64>
        ensures { result ≡ told.global_size ((told.known_of self.now).event name.now) }
    {
        match self.events.find(name) {
            Some(size) => size,
            None => None,
        }
    }

    pub fn is_sub(&self, name: &Name) -> bool
        ensures { result ≡ (told.known_of self.now).is_sub name.now }
    {
        self.subs.find(name).is_some()
    }
}
