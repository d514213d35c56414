//! Stores of elements: into single cells at once, else by way of temporaries.
ghost use Rattle.std.specs.Prelude.{◌≡◌, ◌+◌, ◌≤◌, [], ◌∷◌, ◌++◌, length, map, IfOk, OnOk};
ghost use Rattle.std.specs.List.{range_with_len};
ghost use Rattle.aseba_tree.specs.Core.{core_stmt, store};
ghost use Rattle.aseba_tree.specs.Elements.{element_of, target_index};
ghost use Rattle.aseba_tree.specs.Layout.{cells_of_variables};
ghost use Rattle.aseba_tree.specs.Numbers.{assigned_room};
ghost use Rattle.aseba_tree.specs.View.{core_expr_view, core_stmt_view, core_target_view, expr_view, part_view};
ghost use Rattle.aseba_expand.specs.Listed.{listed_by, listed_in, listed_into, listed_kept, listed_moved, listed_part, store_of};
ghost use Rattle.aseba_expand.specs.Scope.{KnowsNames, program_of};

use crate::constants::span;
use crate::elements::element;
use crate::scope::{Place, Scope};
use aseba_tree::{CoreExpr, CoreForm, CoreStmt, CoreTarget, Expr, Part};
use aseba_words::{List, Mem, Name};
use sqlite_items::Boxed;
use std::alloc::Global;

/// A store as a statement.
pub fn store(alloc: Global, line: u32, target: CoreTarget, value: CoreExpr) -> Result<CoreStmt, Mem>
    ensures { IfOk result (λ s. core_stmt_view s ≡ store_of line (core_target_view target) (core_expr_view value)) }
{
    let target = Boxed::new(alloc, target)?;
    let form = CoreForm::Store(target, Boxed::new(alloc, value)?);
    Ok(CoreStmt { line, form })
}

/// Adds a store.
pub fn add_store(
    alloc: Global,
    line: u32,
    target: CoreTarget,
    value: CoreExpr,
    built: &mut List<CoreStmt>,
) -> Result<(), Mem>
    ensures { OnOk result (map core_stmt_view built.new ≡ map core_stmt_view built.old ++ store_of line (core_target_view target) (core_expr_view value) ∷ []) }
{
    built.add(store(alloc, line, target, value)?)
}

/// Adds the stores of elements into the temporaries from an address on.
pub fn add_kept(
    alloc: Global,
    line: u32,
    from: u16,
    elements: List<CoreExpr>,
    built: &mut List<CoreStmt>,
) -> Result<(), Mem>
    requires { from + length elements ≤ 65535 }
    ensures { OnOk result (map core_stmt_view built.new ≡ map core_stmt_view built.old ++ listed_kept line from (map core_expr_view elements)) }
{
    let mut temporary = from;
    for element in elements.into_vec() {
        add_store(alloc, line, CoreTarget::Cell(temporary), element, built)?;
        temporary += 1;
    }
    Ok(())
}

/// Adds the stores of the temporaries from an address on into a variable's cells.
fn add_moved(
    alloc: Global,
    line: u32,
    from: u16,
    cells: Place,
    built: &mut List<CoreStmt>,
) -> Result<(), Mem>
    requires temporaries { from + cells.size ≤ 65535 }
    requires cells { cells.start + cells.size ≤ 65535 }
    ensures { OnOk result (map core_stmt_view built.new ≡ map core_stmt_view built.old ++ listed_moved line from (range_with_len cells.start cells.size)) }
{
    for place in 0..cells.size {
        let temporary = CoreExpr::Cell(from + place);
        let target = CoreTarget::Cell(cells.start + place);
        add_store(alloc, line, target, temporary, built)?;
    }
    Ok(())
}

/// Adds the stores of elements into a variable's cells.
fn add_into(
    alloc: Global,
    line: u32,
    from: u16,
    cells: Place,
    elements: List<CoreExpr>,
    built: &mut List<CoreStmt>,
) -> Result<(), Mem>
    requires temporaries { from + length elements ≤ 65535 }
    requires moved { from + cells.size ≤ 65535 }
    requires cells { cells.start + cells.size ≤ 65535 }
    ensures { OnOk result (map core_stmt_view built.new ≡ map core_stmt_view built.old ++ listed_in line from (range_with_len cells.start cells.size) (map core_expr_view elements)) }
{
    if elements.as_slice().len() == 1 && 0 < cells.size {
        add_only(alloc, line, cells.start, elements, built)
    } else {
        add_kept(alloc, line, from, elements, built)?;
        add_moved(alloc, line, from, cells, built)
    }
}

/// Adds the store of one element into a cell.
fn add_only(
    alloc: Global,
    line: u32,
    address: u16,
    elements: List<CoreExpr>,
    built: &mut List<CoreStmt>,
) -> Result<(), Mem>
    requires { length elements ≡ 1 }
    ensures { OnOk result (map core_stmt_view built.new ≡ map core_stmt_view built.old ++ listed_into line address (map core_expr_view elements)) }
{
    for element in elements.into_vec() {
        add_store(alloc, line, CoreTarget::Cell(address), element, built)?;
    }
    Ok(())
}

/// Adds the stores of elements into the indexed cell of a variable.
fn add_indexed(
    alloc: Global,
    scope: &Scope,
    line: u32,
    place: Place,
    index: &Expr,
    elements: List<CoreExpr>,
    built: &mut List<CoreStmt>,
) -> Result<(), Mem>
    requires { KnowsNames scope.now }
    ensures { OnOk result (map core_stmt_view built.new ≡ map core_stmt_view built.old ++ listed_by line place.start place.size (element_of (program_of scope.now) (expr_view index.now)) (map core_expr_view elements)) }
{
    for value in elements.into_vec() {
        let index = element(alloc, scope, index)?;
        let target = CoreTarget::Indirect(place.start, place.size, index);
        add_store(alloc, line, target, value, built)?;
    }
    Ok(())
}

/// Adds the stores of elements into a part of a variable.
pub fn add_assigned(
    alloc: Global,
    scope: &Scope,
    line: u32,
    name: &Name,
    part: &Part,
    elements: List<CoreExpr>,
    built: &mut List<CoreStmt>,
) -> Result<(), Mem>
    requires names { KnowsNames scope.now }
    requires room { cells_of_variables (program_of scope.now) + assigned_room (target_index (program_of scope.now) (part_view part.now)) (map core_expr_view elements) ≤ 65535 }
    ensures { OnOk result (map core_stmt_view built.new ≡ map core_stmt_view built.old ++ listed_part (program_of scope.now) line name.now (part_view part.now) (map core_expr_view elements)) }
{
    let place = scope.known_place(name);
    match part {
        Part::All => add_into(alloc, line, scope.cells, place, elements, built),
        Part::At(index) => add_indexed(alloc, scope, line, place, index.get(), elements, built),
        Part::Span(first, last) => {
            let cells = span(scope, name, first.get(), last.get());
            add_into(alloc, line, scope.cells, cells, elements, built)
        }
    }
}
