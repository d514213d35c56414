//! Where the variables lie.
ghost use Rattle.std.specs.Prelude.{◌≡◌, [], ◌∷◌, ◌++◌, IfOk, OnOk, unwrap_or};
ghost use Rattle.aseba_check.specs.Places as told;

use aseba_tree::{Decl, Placed, Sized};
use aseba_words::{List, Mem, Name};
use std::alloc::Global;

/// How many cells variables take together: those of the node, and those of these sizes.
pub fn cells_of(variables: &[Sized], sizes: &[Option<u64>]) -> u64
    ensures { result ≡ told.declared_cells (told.node_cells 0 variables.now) sizes.now }
{
    declared_cells(node_cells(variables), sizes)
}

fn node_cells(variables: &[Sized]) -> u64
    ensures { result ≡ told.node_cells 0 variables.now }
{
    let mut cells: u64 = 0;
    for variable in variables {
        cells = cells.saturating_add(u64::from(variable.size));
    }
    cells
}

fn declared_cells(before: u64, sizes: &[Option<u64>]) -> u64
    ensures { result ≡ told.declared_cells before sizes.now }
{
    let mut cells = before;
    for size in sizes {
        cells = cells.saturating_add(size.unwrap_or(0));
    }
    cells
}

/// The places of the node's variables and then of those that are declared with these sizes.
pub fn places_of(
    alloc: Global,
    variables: &[Sized],
    vars: &[Decl],
    sizes: &[Option<u64>],
) -> Result<List<Placed>, Mem>
    ensures { IfOk result (λ places. places ≡ told.placed_variables 0 variables.now ++ told.placed_decls (told.node_cells 0 variables.now) vars.now sizes.now) }
{
    let mut places = List::new(alloc);
    place_variables(alloc, &mut places, variables)?;
    place_declared(alloc, &mut places, node_cells(variables), vars, sizes)?;
    Ok(places)
}

fn place_variables(alloc: Global, places: &mut List<Placed>, variables: &[Sized]) -> Result<(), Mem>
    ensures { OnOk result (places.new ≡ places.old ++ told.placed_variables 0 variables.now) }
{
    let mut start: u64 = 0;
    for variable in variables {
        let size = u64::from(variable.size);
        place(alloc, places, start, size, &variable.name)?;
        start = start.saturating_add(size);
    }
    Ok(())
}

fn place_declared(
    alloc: Global,
    places: &mut List<Placed>,
    first: u64,
    vars: &[Decl],
    sizes: &[Option<u64>],
) -> Result<(), Mem>
    ensures { OnOk result (places.new ≡ places.old ++ told.placed_decls first vars.now sizes.now) }
{
    let mut start = first;
    let mut rest = sizes;
    for decl in vars {
        let [size, behind @ ..] = rest else {
            break;
        };
        let size = size.unwrap_or(0);
        place(alloc, places, start, size, &decl.name)?;
        start = start.saturating_add(size);
        rest = behind;
    }
    Ok(())
}

/// Adds a variable that starts at an address.
fn place(
    alloc: Global,
    places: &mut List<Placed>,
    start: u64,
    size: u64,
    name: &Name,
) -> Result<(), Mem>
    ensures { OnOk result (places.new ≡ places.old ++ told.placed_at start size name.now ∷ []) }
{
    let placed = Placed {
        name: name.copy(alloc)?,
        start: address(start),
        size: address(size),
    };
    places.add(placed)
}

/// A number of cells as an address. No node has more.
fn address(cells: u64) -> u16
    ensures { result ≡ told.address cells }
{
    cells.min(65535) as u16
}
