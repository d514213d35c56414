//! What the names of a checked source mean.
ghost use Rattle.std.specs.Prelude.{◌≡◌, ◌+◌, ◌≤◌, map, IfSome, option_map};
ghost use Rattle.aseba_tree.specs.Elements.{variable_place};
ghost use Rattle.aseba_tree.specs.Events.{event_number};
ghost use Rattle.aseba_tree.specs.Line.{named};
ghost use Rattle.aseba_tree.specs.Numbers.{param_sizes};
ghost use Rattle.aseba_tree.specs.Step.{native_place};
ghost use Rattle.aseba_tree.specs.Value.{constant_number};
ghost use Rattle.aseba_expand.specs.Plain.{size_of, start_of, sub_place};
ghost use Rattle.aseba_expand.specs.Scope.{KnowsNames, pair_of, program_of, sizes_at};

use aseba_check::Table;
use aseba_tree::{Native, Param, Project, Source};
use aseba_words::Name;

/// Where a variable lies.
#[derive(Clone, Copy, Debug)]
pub struct Place {
    /// The address of its first cell.
    pub start: u16,
    /// The number of its cells.
    pub size: u16,
}

/// A checked source in its project, with tables in which each of its names is found in one step.
#[derive(Drop)]
pub struct Scope<'a> {
    pub project: &'a Project,
    pub source: &'a Source,
    pub variables: Table<Place>,
    pub constants: Table<i16>,
    /// The number of each global and local event.
    pub events: Table<u16>,
    /// The place of each native in the node's list.
    pub natives: Table<usize>,
    /// The place of each subroutine among the parts.
    pub subs: Table<usize>,
    /// How many cells the variables take: the address of the first temporary.
    pub cells: u16,
}

impl Scope<'_> {
    /// Where the variable of a name lies.
    pub fn place(&self, name: &Name) -> Option<Place>
        requires { KnowsNames self.now }
        ensures place { option_map pair_of result ≡ variable_place (program_of self.now) name.now }
        ensures short { IfSome result (λ place. place.start + place.size ≤ 4096) }
    {
        self.variables.find(name)
    }

    /// Where a variable lies that is there.
    pub fn known_place(&self, name: &Name) -> Place
        requires { KnowsNames self.now }
        ensures start { result.start ≡ start_of (program_of self.now) name.now }
        ensures size { result.size ≡ size_of (program_of self.now) name.now }
        ensures short { result.start + result.size ≤ 4096 }
    {
        self.place(name).unwrap_or(Place { start: 0, size: 0 })
    }

    /// The parameters of a native, none where there is no such native.
    pub fn params(&self, name: &Name) -> &[Param]
        requires { KnowsNames self.now }
        ensures { map (λ p. p.size) result.now ≡ param_sizes (program_of self.now).project name.now }
    {
        match self.natives.find(name) {
            Some(place) => params_at(self.project.node.natives.as_slice(), place),
            None => &[],
        }
    }

    /// The number of a constant.
    pub fn constant(&self, name: &Name) -> Option<i16>
        requires { KnowsNames self.now }
        ensures { result ≡ constant_number (program_of self.now).project.consts name.now }
    {
        self.constants.find(name)
    }

    /// The number of an event of the project.
    pub fn event(&self, name: &Name) -> Option<u16>
        requires { KnowsNames self.now }
        ensures { result ≡ event_number (program_of self.now).project (named name.now) }
    {
        self.events.find(name)
    }

    /// The place of a native in the node's list.
    pub fn native(&self, name: &Name) -> u16
        requires { KnowsNames self.now }
        ensures { result ≡ native_place (program_of self.now).project name.now }
    {
        let many = self.project.node.natives.as_slice().len();
        self.natives.find(name).unwrap_or(many) as u16
    }

    /// The place of a subroutine among the parts.
    pub fn sub(&self, name: &Name) -> u32
        requires { KnowsNames self.now }
        ensures { result ≡ sub_place (program_of self.now) name.now }
    {
        let many = self.source.parts.as_slice().len();
        self.subs.find(name).unwrap_or(many) as u32
    }
}

/// The parameters of the native of a place.
fn params_at(natives: &[Native], place: usize) -> &[Param]
    ensures { map (λ p. p.size) result.now ≡ sizes_at natives.now place }
{
    match natives.get(place) {
        Some(native) => native.params.as_slice(),
        None => &[],
    }
}
