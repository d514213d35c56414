//! The events and variables that a script may name.
ghost use Rattle.std.specs.Prelude.{◌≡◌, ◌+◌, ◌<◌, map, option_map, length, All, IfSome};
ghost use Rattle.aseba_tree.specs.Events.{event_number};
ghost use Rattle.aseba_tree.specs.Inside.{InsideProject};
ghost use Rattle.aseba_tree.specs.Layout.{placed_named};
ghost use Rattle.aseba_tree.specs.Line.{named};
ghost use Rattle.aseba_tree.specs.View.{placed_view, project_view};
ghost use Rattle.aseba_driver.specs.Reading as spec;

use aseba_tree::{Local, Placed, Project, Sized};

/// The number of a project's event of this name. A global one comes before a local one.
pub fn number_of_event(project: &Project, name: &[u8]) -> Option<u16>
    requires { InsideProject project.now }
    ensures { result ≡ event_number (project_view project.now) (named name.now) }
{
    match global_place(project.events.as_slice(), name) {
        Some(place) => Some(place as u16),
        None => match local_place(project.node.locals.as_slice(), name) {
            Some(place) => Some(0xFFFE - place as u16),
            None => None,
        },
    }
}

fn global_place(events: &[Sized], name: &[u8]) -> Option<usize>
    ensures value { result ≡ spec.place_of_event name.now events.now }
    ensures inside { IfSome result (λ place. place < length events.now) }
{
    events
        .iter()
        .position(|event| event.name.as_bytes() == name)
}

fn local_place(locals: &[Local], name: &[u8]) -> Option<usize>
    ensures value { result ≡ spec.place_of_local name.now locals.now }
    ensures inside { IfSome result (λ place. place < length locals.now) }
{
    locals
        .iter()
        .position(|local| local.name.as_bytes() == name)
}

/// The first of these variables of this name.
pub fn variable_named<'a>(places: &'a [Placed], name: &[u8]) -> Option<&'a Placed>
    requires { All (λ place. place.start + place.size < 65536) places.now }
    ensures near { IfSome result (λ place. place.now.start + place.now.size < 65536) }
    ensures value { option_map (λ place. placed_view place.now) result ≡ placed_named (map placed_view places.now) name.now }
{
    for place in places {
        if place.name.as_bytes() == name {
            return Some(place);
        }
    }
    None
}
