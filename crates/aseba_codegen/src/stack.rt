//! The stack cells that a core's own code takes, counted up to a number, at which sums stop.
ghost use Rattle.std.specs.Prelude.{◌≡◌, ◌+◌, ◌≤◌, min, max, length, map, slice_index, IfOk};
ghost use Rattle.aseba_codegen.specs.OwnDepth.{depth_by, depth_round, depths_after, deepest_handler, handled_depth};
ghost use Rattle.aseba_tree.specs.CoreNumbers.{core_depth, core_form_depth, core_stmt_depth, store_depth};
ghost use Rattle.aseba_tree.specs.Numbers as number;
ghost use Rattle.aseba_tree.specs.View.{core_expr_view, core_form_view, core_part_view, core_stmt_view, core_stmts_view, core_target_view, core_view};

use aseba_tree::{Core, CoreExpr, CoreForm, CorePart, CoreStmt, CoreTarget};
use aseba_words::{List, Mem};
use std::alloc::Global;

/// What one value takes and then another, with the first one below it.
fn stacked(below: u64, above: u64, most: u64) -> u64
    requires most { most ≤ 65536 }
    requires above { above ≤ most }
    ensures { result ≡ max below (min most (1 + above)) }
{
    below.max(most.min(1 + above))
}

/// How many stack cells the code of an expression takes.
fn expr_depth(expr: &CoreExpr, most: u64) -> u64
    requires { most ≤ 65536 }
    ensures { result ≡ min most (number.depth (core_expr_view expr.now)) }
{
    match expr {
        CoreExpr::Number(_) => most.min(1),
        CoreExpr::Cell(_) => most.min(1),
        CoreExpr::Indirect(_, _, index) => expr_depth(index.get(), most),
        CoreExpr::One(_, operand) => expr_depth(operand.get(), most),
        CoreExpr::Two(_, left, right) => stacked(
            expr_depth(left.get(), most),
            expr_depth(right.get(), most),
            most,
        ),
    }
}

/// How many stack cells a condition takes before its branch.
fn test_depth(test: &CoreExpr, most: u64) -> u64
    requires { most ≤ 65536 }
    ensures { result ≡ min most (number.condition_depth (core_expr_view test.now)) }
{
    match test {
        CoreExpr::Two(op, left, right) if op.is_of_one_cell() => stacked(
            expr_depth(left.get(), most),
            expr_depth(right.get(), most),
            most,
        ),
        _ => expr_depth(test, most).max(most.min(2)),
    }
}

/// How many stack cells a store takes.
fn stored_depth(target: &CoreTarget, value: &CoreExpr, most: u64) -> u64
    requires { most ≤ 65536 }
    ensures { result ≡ min most (store_depth (core_target_view target.now) (core_expr_view value.now)) }
{
    let value = expr_depth(value, most);
    match target {
        CoreTarget::Cell(_) => value,
        CoreTarget::Indirect(_, _, index) => stacked(value, expr_depth(index, most), most),
    }
}

/// What a call of a subroutine takes, where each takes so many stack cells.
fn call_depth(depths: &[u64], which: u32, most: u64) -> u64
    requires { most ≤ 65536 }
    ensures { result ≡ min most (1 + slice_index depths.now which) }
{
    match depths.get(which as usize) {
        Some(depth) => most.min(depth.saturating_add(1)),
        None => most.min(1),
    }
}

/// How many stack cells a statement takes.
#[cycle(depths)]
fn stmt_depth(stmt: &CoreStmt, depths: &[u64], most: u64) -> u64
    requires { most ≤ 65536 }
    ensures { result ≡ min most (core_stmt_depth (λ which. slice_index depths.now which) (core_stmt_view stmt.now)) }
{
    form_depth(&stmt.form, depths, most)
}

/// How many stack cells what a statement is made of takes.
#[cycle(depths)]
fn form_depth(form: &CoreForm, depths: &[u64], most: u64) -> u64
    requires { most ≤ 65536 }
    ensures { result ≡ min most (core_form_depth (λ which. slice_index depths.now which) (core_form_view form.now)) }
{
    match form {
        CoreForm::Store(target, value) => stored_depth(target.get(), value.get(), most),
        CoreForm::If(test, body, other) => test_depth(test.get(), most).max(list_depth(
            body, depths, most,
        ).max(list_depth(other, depths, most))),
        CoreForm::When(test, body) => {
            test_depth(test.get(), most).max(list_depth(body, depths, most))
        }
        CoreForm::While(test, body) => {
            test_depth(test.get(), most).max(list_depth(body, depths, most))
        }
        CoreForm::Emit(_, _, _) => 0,
        CoreForm::CallSub(which) => call_depth(depths, *which, most),
        CoreForm::Call(_, values) => most.min(values.as_slice().len() as u64),
        CoreForm::Return => 0,
    }
}

/// How many stack cells statements take.
#[cycle(depths)]
fn list_depth(body: &List<CoreStmt>, depths: &[u64], most: u64) -> u64
    requires { most ≤ 65536 }
    ensures { result ≡ min most (depth_by depths.now (core_stmts_view body.now)) }
{
    let mut deepest = 0;
    for stmt in body.as_slice() {
        deepest = stmt_depth(stmt, depths, most).max(deepest);
    }
    deepest
}

/// What each part takes, where calls take what was counted before.
fn round(alloc: Global, parts: &[CorePart], depths: &[u64], most: u64) -> Result<List<u64>, Mem>
    requires { most ≤ 65536 }
    ensures { IfOk result (λ next. next ≡ depth_round most (map core_part_view parts.now) depths.now) }
{
    let mut next = List::new(alloc);
    for part in parts {
        next.add(list_depth(&part.body, depths, most))?;
    }
    Ok(next)
}

/// What each part takes, calls inside it included, which are no deeper than there are parts.
fn sub_depths(alloc: Global, parts: &[CorePart], most: u64) -> Result<List<u64>, Mem>
    requires { most ≤ 65536 }
    ensures { IfOk result (λ depths. depths ≡ depths_after most (map core_part_view parts.now) (length parts.now)) }
{
    let mut depths = List::new(alloc);
    for _ in 0..parts.len() {
        let next = round(alloc, parts, depths.as_slice(), most)?;
        if next.as_slice() == depths.as_slice() {
            return Ok(next);
        }
        depths = next;
    }
    Ok(depths)
}

/// What a handler takes, by what the parts take, and nothing for a subroutine.
fn handler_depth(part: &CorePart, depths: &[u64], most: u64) -> u64
    requires { most ≤ 65536 }
    ensures { result ≡ min most (handled_depth depths.now (core_part_view part.now)) }
{
    if part.event.is_some() {
        list_depth(&part.body, depths, most)
    } else {
        0
    }
}

/// What the init code or a handler takes, whichever takes most, by what the parts take.
fn deepest(core: &Core, depths: &[u64], most: u64) -> u64
    requires { most ≤ 65536 }
    ensures { result ≡ min most (max (depth_by depths.now (core_view core.now).init) (deepest_handler depths.now (core_view core.now).parts)) }
{
    let mut deepest = list_depth(&core.init, depths, most);
    for part in core.parts.as_slice() {
        deepest = deepest.max(handler_depth(part, depths, most));
    }
    deepest
}

/// How many stack cells a core's own code takes, counted up to a number.
pub fn own_depth(alloc: Global, core: &Core, most: u64) -> Result<u64, Mem>
    requires { most ≤ 65536 }
    ensures { IfOk result (λ depth. depth ≡ min most (core_depth (core_view core.now))) }
{
    let depths = sub_depths(alloc, core.parts.as_slice(), most)?;
    Ok(deepest(core, depths.as_slice(), most))
}
