//! The node of a project: where its named cells lie, and the shape of its machine.
ghost use Rattle.std.specs.Prelude.{◌≡◌, ◌≤◌, map, option_map};
ghost use Rattle.aseba_tree.specs.Inside.{InsideProject, InsideVariables, named_cells};
ghost use Rattle.aseba_tree.specs.Layout.{placed_from};
ghost use Rattle.aseba_tree.specs.View.{project_view, sized_view};
ghost use Rattle.aseba_target.specs.Node.{shape_of};
ghost use Rattle.aseba_target.specs.Place.{place_among};

use aseba_tree::{Project, Sized};
use aseba_vm::Shape;

/// Where a named variable lies.
#[derive(Clone, Copy, Debug)]
pub struct Place {
    /// The address of its first cell.
    pub start: u16,
    /// The number of its cells.
    pub size: u16,
}

/// The shape of a project's machine.
pub fn shape(project: &Project) -> Shape
    requires { InsideProject project.now }
    ensures { result ≡ shape_of (project_view project.now) }
{
    let variables = project.node.variables.as_slice();
    let nowhere = Place { start: 0, size: 0 };
    let args = place_named(variables, b"event.args").unwrap_or(nowhere);
    Shape {
        code: project.node.code,
        cells: project.node.cells,
        stack: project.node.stack,
        id: start_of(place_named(variables, b"_id")),
        source: start_of(place_named(variables, b"event.source")),
        args_at: args.start,
        args_len: args.size,
    }
}

fn start_of(place: Option<Place>) -> Option<u16>
    ensures { result ≡ option_map (λ p. p.start) place }
{
    match place {
        Some(place) => Some(place.start),
        None => None,
    }
}

/// The place of the first variable of a name, where they lie one behind the other.
pub fn place_named(variables: &[Sized], name: &[u8]) -> Option<Place>
    requires { named_cells variables.now ≤ 4096 }
    ensures { result ≡ place_among (placed_from 0 (map sized_view variables.now)) name.now }
{
    let mut start = 0;
    for variable in variables {
        if variable.name.as_bytes() == name {
            return Some(Place {
                start,
                size: variable.size,
            });
        }
        start += variable.size;
    }
    None
}
