//! Names and their declarations.
ghost use Rattle.std.specs.Prelude.{◌≡◌, [], ◌∷◌, ◌++◌, map, option_map, IfOk, OnOk, FitsSigned};
ghost use Rattle.std.specs.Int.{w16};
ghost use Rattle.aseba_tree.specs.View.{expr_view, decl_view};
ghost use Rattle.aseba_tree.specs.Faults.{size_in_range};
ghost use Rattle.aseba_tree.specs.Each.{EachOption, EachDecl};
ghost use Rattle.aseba_check.specs.Fits.{Fits};
ghost use Rattle.aseba_check.specs.Looked.{looked, nothing};
ghost use Rattle.aseba_check.specs.Declarations as told;

use crate::expressions::facts_of;
use crate::facts::{Facts, Meaning, bad_size};
use crate::fault::{Fault, Rule, fault_if, least};
use crate::statements::bound_fault;
use crate::table::Table;
use aseba_tree::{Const, Decl, Expr, Pos, Project, Sized};
use aseba_words::{List, Mem, Name};
use std::alloc::Global;

/// The names that a project gives.
pub fn project_names(alloc: Global, project: &Project) -> Result<Table<Meaning>, Mem>
    ensures names { IfOk result (λ names. looked names ≡ told.with_variables (told.with_consts nothing project.now.consts) project.now.node.variables) }
    ensures fits { OnOk result (told.ConstsFit project.now.consts) }
{
    let mut names = Table::new(alloc);
    add_constants(alloc, &mut names, project.consts.as_slice())?;
    add_variables(alloc, &mut names, project.node.variables.as_slice())?;
    Ok(names)
}

fn add_constants(alloc: Global, names: &mut Table<Meaning>, consts: &[Const]) -> Result<(), Mem>
    ensures names { OnOk result (looked names.new ≡ told.with_consts (looked names.old) consts.now) }
    ensures fits { OnOk result (told.ConstsFit consts.now) }
{
    for constant in consts {
        add_constant(alloc, names, constant)?;
    }
    Ok(())
}

fn add_constant(alloc: Global, names: &mut Table<Meaning>, constant: &Const) -> Result<(), Mem>
    ensures names { OnOk result (looked names.new ≡ told.with_const (looked names.old) constant.now) }
    ensures fits { FitsSigned w16 constant.now.value }
{
    let value = constant.value;
    names.set_first(alloc, &constant.name, Meaning::Constant(value))
}

fn add_variables(alloc: Global, names: &mut Table<Meaning>, variables: &[Sized]) -> Result<(), Mem>
    ensures { OnOk result (looked names.new ≡ told.with_variables (looked names.old) variables.now) }
{
    for variable in variables {
        declare(alloc, names, &variable.name, Some(u64::from(variable.size)))?;
    }
    Ok(())
}

/// Adds a variable, unless one has its name.
pub fn declare(
    alloc: Global,
    names: &mut Table<Meaning>,
    name: &Name,
    size: Option<u64>,
) -> Result<(), Mem>
    ensures { OnOk result (looked names.new ≡ told.declared (looked names.old) name.now size) }
{
    match names.find(name) {
        Some(Meaning::Variable(_)) => Ok(()),
        _ => names.set(alloc, name, Meaning::Variable(size)),
    }
}

/// The least fault of declarations, each where the names before it are known. The names get the
/// variables, and their sizes are added to the list.
pub fn declarations_fault(
    alloc: Global,
    names: &mut Table<Meaning>,
    sizes: &mut List<Option<u64>>,
    vars: &[Decl],
) -> Result<Option<Fault>, Mem>
    ensures fault { IfOk result (λ fault. fault ≡ told.decls_told (looked names.old) None (map decl_view vars.now)) }
    ensures names { OnOk result (looked names.new ≡ told.all_declaring (looked names.old) (map decl_view vars.now)) }
    ensures sizes { OnOk result (sizes.new ≡ sizes.old ++ told.decl_sizes (looked names.old) (map decl_view vars.now)) }
    ensures fits { OnOk result (EachDecl Fits (map decl_view vars.now)) }
{
    let mut fault = None;
    for decl in vars {
        fault = take_declaration(alloc, names, sizes, decl, fault)?;
    }
    Ok(fault)
}

/// The least of faults and that of a declaration behind them. The names get its variable, and its
/// size is added to the list.
fn take_declaration(
    alloc: Global,
    names: &mut Table<Meaning>,
    sizes: &mut List<Option<u64>>,
    decl: &Decl,
    before: Option<Fault>,
) -> Result<Option<Fault>, Mem>
    ensures fault { IfOk result (λ fault. fault ≡ told.with_decl (looked names.old) before (decl_view decl.now)) }
    ensures names { OnOk result (looked names.new ≡ told.declaring (looked names.old) (decl_view decl.now)) }
    ensures sizes { OnOk result (sizes.new ≡ sizes.old ++ told.given_size (told.size_facts (looked names.old) (option_map expr_view decl.now.size)) ∷ []) }
    ensures fits { OnOk result (EachOption Fits (option_map expr_view decl.now.size) × EachOption Fits (option_map expr_view decl.now.value)) }
{
    let facts = size_facts(names, &decl.size);
    let fault = least(before, declaration_fault(names, decl, facts));
    let size = given_size(facts);
    declare(alloc, names, &decl.name, size)?;
    sizes.add(size)?;
    Ok(fault)
}

fn size_facts(names: &Table<Meaning>, size: &Option<Expr>) -> Option<Facts>
    ensures told { result ≡ told.size_facts (looked names.now) (option_map expr_view size.now) }
    ensures fits { EachOption Fits (option_map expr_view size.now) }
{
    match size {
        None => None,
        Some(size) => Some(facts_of(names, size)),
    }
}

/// The size that a declaration gives, where it is one.
fn given_size(size: Option<Facts>) -> Option<u64>
    ensures { result ≡ told.given_size size }
{
    match size {
        None => Some(1),
        Some(size) => size_in_range(size.value),
    }
}

fn size_in_range(value: Option<i16>) -> Option<u64>
    ensures { result ≡ size_in_range value }
{
    match value {
        Some(size) if 1 <= size && size <= 4096 => Some(size as u64),
        _ => None,
    }
}

/// The fault of a declaration whose size is of these facts.
fn declaration_fault(names: &Table<Meaning>, decl: &Decl, size: Option<Facts>) -> Option<Fault>
    requires { size ≡ told.size_facts (looked names.now) (option_map expr_view decl.now.size) }
    ensures told { result ≡ told.decl_told (looked names.now) (decl_view decl.now) }
    ensures fits { EachOption Fits (option_map expr_view decl.now.value) }
{
    let is_known = names.find(&decl.name).is_some();
    let duplicate = fault_if(is_known, decl.at, Rule::Duplicate);
    let inside = least(duplicate, size_fault(decl.at, size));
    let want = given_size(size);
    least(inside, value_fault(names, decl.equals, want, &decl.value))
}

fn size_fault(at: Pos, size: Option<Facts>) -> Option<Fault>
    ensures { result ≡ told.size_told at size }
{
    match size {
        None => None,
        Some(size) => least(bound_fault(&size), size_out_of_range(at, size.value)),
    }
}

fn size_out_of_range(at: Pos, size: Option<i16>) -> Option<Fault>
    ensures { result ≡ told.size_out_of_range at size }
{
    match size {
        None => None,
        Some(size) => {
            let got = i64::from(size);
            let small = fault_if(size < 1, at, Rule::BadSize { want: 1, got });
            let large = fault_if(4096 < size, at, Rule::BadSize { want: 4096, got });
            least(small, large)
        }
    }
}

fn value_fault(
    names: &Table<Meaning>,
    equals: Pos,
    want: Option<u64>,
    value: &Option<Expr>,
) -> Option<Fault>
    ensures told { result ≡ told.value_told (looked names.now) equals want (option_map expr_view value.now) }
    ensures fits { EachOption Fits (option_map expr_view value.now) }
{
    match value {
        None => None,
        Some(value) => {
            let facts = facts_of(names, value);
            least(facts.fault, bad_size(equals, want, facts.size))
        }
    }
}
