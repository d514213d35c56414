//! Calls of natives.
ghost use Rattle.std.specs.Prelude.{◌≡◌, [], ◌∷◌, ◌++◌, None, IfOk, OnOk};
ghost use Rattle.aseba_tree.specs.View.{exprs_view};
ghost use Rattle.aseba_tree.specs.Each.{EachItem};
ghost use Rattle.aseba_check.specs.Fits.{Fits};
ghost use Rattle.aseba_check.specs.Looked.{looked};
ghost use Rattle.std.specs.Option.{option_copied};
ghost use Rattle.aseba_check.specs.Statements as told;

use crate::expressions::facts_of;
use crate::facts::{Facts, Meaning};
use crate::fault::{Fault, Rule, fault_if, least};
use crate::sizes::signed;
use crate::table::Table;
use crate::world::World;
use aseba_tree::{Expr, Native, Param, Pos};
use aseba_words::{List, Mem, Name};
use std::alloc::Global;

/// The fault of a call whose native's name stands at a place.
pub fn call_fault(
    alloc: Global,
    world: &World,
    at: Pos,
    name: &Name,
    arguments: &List<Expr>,
) -> Result<Option<Fault>, Mem>
    ensures told { IfOk result (λ fault. fault ≡ told.call_told (told.known_of world.now) at name.now (exprs_view arguments.now)) }
    ensures fits { OnOk result (EachItem Fits (exprs_view arguments.now)) }
{
    let given = given_facts(alloc, &world.names, arguments)?;
    let inside = inside_fault(given.as_slice());
    let native = native_fault(at, world.native(name), given.as_slice());
    Ok(least(inside, native))
}

/// What is known of each argument.
fn given_facts(
    alloc: Global,
    names: &Table<Meaning>,
    arguments: &List<Expr>,
) -> Result<List<Facts>, Mem>
    ensures given { IfOk result (λ given. given ≡ told.given (looked names.now) (exprs_view arguments.now)) }
    ensures fits { OnOk result (EachItem Fits (exprs_view arguments.now)) }
{
    let mut given = List::new(alloc);
    for argument in arguments.as_slice() {
        given.add(facts_of(names, argument))?;
    }
    Ok(given)
}

/// The least fault in arguments.
fn inside_fault(given: &[Facts]) -> Option<Fault>
    ensures { result ≡ told.inside_told None given.now }
{
    let mut fault = None;
    for argument in given {
        fault = least(fault, argument.fault);
    }
    fault
}

/// The fault of a native that is called with these arguments, the faults in them left out.
fn native_fault(at: Pos, native: Option<&Native>, given: &[Facts]) -> Option<Fault>
    ensures { result ≡ told.native_told at (option_copied native.entry) given.now }
{
    match native {
        None => Some(Fault {
            at,
            rule: Rule::Unknown,
        }),
        Some(native) => {
            let params = native.params.as_slice();
            let want = signed(params.len() as u64);
            let got = signed(given.len() as u64);
            let count = fault_if(
                params.len() != given.len(),
                at,
                Rule::ArgCount { want, got },
            );
            least(count, lengths_fault(params, given))
        }
    }
}

/// The first argument that has another length than its parameter asks for.
fn lengths_fault(params: &[Param], given: &[Facts]) -> Option<Fault>
    ensures { result ≡ told.lengths_told params.now given.now None params.now given.now }
{
    let mut fault = None;
    let mut rest = given;
    for param in params {
        let [argument, behind @ ..] = rest else {
            break;
        };
        fault = with_argument(params, given, fault, param, argument);
        rest = behind;
    }
    fault
}

/// The least of faults and that of an argument's length behind them.
fn with_argument(
    params: &[Param],
    given: &[Facts],
    before: Option<Fault>,
    param: &Param,
    argument: &Facts,
) -> Option<Fault>
    ensures { result ≡ told.with_argument params.now given.now before param.now argument.now }
{
    let want = wanted_length(params, given, param.size);
    least(before, length_fault(argument.first, want, argument.size))
}

/// The length that a parameter asks for: its own, or that of its template's first argument.
fn wanted_length(params: &[Param], given: &[Facts], size: i16) -> Option<i64>
    ensures { result ≡ told.wanted_length params.now given.now size }
{
    if size >= 0 {
        return Some(i64::from(size));
    }
    match template_size(params, given, size) {
        Some(size) => Some(signed(size)),
        None => None,
    }
}

/// The fault of an argument's length.
fn length_fault(at: Pos, want: Option<i64>, got: Option<u64>) -> Option<Fault>
    ensures { result ≡ told.length_told at want got }
{
    match (want, got) {
        (Some(want), Some(got)) => {
            let got = signed(got);
            fault_if(want != got, at, Rule::BadSize { want, got })
        }
        _ => None,
    }
}

/// The length of the first argument of a template.
fn template_size(params: &[Param], given: &[Facts], template: i16) -> Option<u64>
    ensures { result ≡ told.template_size params.now given.now template }
{
    let mut rest = given;
    for param in params {
        let [argument, behind @ ..] = rest else {
            break;
        };
        if param.size == template {
            return argument.size;
        }
        rest = behind;
    }
    None
}
