//! The check of a whole source.
ghost use Rattle.std.specs.Prelude.{◌≡◌, [], ◌++◌, option_map, IfOk, OnOk, IfErr};
ghost use Rattle.aseba_tree.specs.Inside.{InsideProject};
ghost use Rattle.aseba_tree.specs.Shape.{IsTree};
ghost use Rattle.aseba_tree.specs.View.{source_view};
ghost use Rattle.aseba_tree.specs.Faults as tree;
ghost use Rattle.aseba_check.specs.Accepted.{IsChecked};
ghost use Rattle.aseba_check.specs.Refused.{program_in, TellsRefusal};
ghost use Rattle.aseba_check.specs.Told.{fault_view};
ghost use Rattle.aseba_check.specs.Walk.{source_sizes, SourceFits};

use crate::checked::Checked;
use crate::error::{CheckError, error_of};
use crate::far::far_subroutine;
use crate::fault::{Fault, least};
use crate::layout::{cells_of, places_of};
use crate::recursion::recursion_fault;
use crate::rules::rules_fault;
use aseba_tree::{Project, Source};
use aseba_words::{List, Mem};
use std::alloc::Global;

/// Checks a source in a project that keeps to the limits. A source that breaks no rule, whose
/// variables have room in the node and each of whose subroutines a call can reach, comes back as
/// it was, with the places of its variables. Of another one, which is dropped, the error tells the
/// first rule by place that is broken; where none is, that the variables have no room; and else
/// the first subroutine that no call can reach.
pub fn check(alloc: Global, source: Source, project: &Project) -> Result<Checked, CheckError>
    requires inside { InsideProject project.now }
    requires is_tree { IsTree (source_view source) }
    ensures checked { IfOk result (λ checked. IsChecked project.now checked) }
    ensures same { IfOk result (λ checked. checked.source ≡ source) }
    ensures refused { IfErr result (λ error. TellsRefusal (program_in project.now source) error) }
{
    let mut sizes = List::new(alloc);
    match first_fault(alloc, &source, project, &mut sizes)? {
        Some(fault) => Err(error_of(fault)),
        None => laid_out(alloc, source, project, sizes.as_slice()),
    }
}

/// The first rule by place that is broken. The sizes of the variables are added to the list.
fn first_fault(
    alloc: Global,
    source: &Source,
    project: &Project,
    sizes: &mut List<Option<u64>>,
) -> Result<Option<Fault>, Mem>
    requires inside { InsideProject project.now }
    requires is_tree { IsTree (source_view source.now) }
    ensures told { IfOk result (λ fault. option_map fault_view fault ≡ tree.first_fault (tree.faults (program_in project.now source.now))) }
    ensures sizes { OnOk result (sizes.new ≡ sizes.old ++ source_sizes project.now (source_view source.now)) }
    ensures fits { OnOk result (SourceFits project.now (source_view source.now)) }
{
    let rules = rules_fault(alloc, source, project, sizes)?;
    let cycles = recursion_fault(alloc, source.parts.as_slice())?;
    Ok(least(rules, cycles))
}

/// A source that breaks no rule, with the places of its variables, which have these sizes.
fn laid_out(
    alloc: Global,
    source: Source,
    project: &Project,
    sizes: &[Option<u64>],
) -> Result<Checked, CheckError>
    requires inside { InsideProject project.now }
    requires is_tree { IsTree (source_view source) }
    requires faultless { tree.faults (program_in project.now source) ≡ [] }
    requires fits { SourceFits project.now (source_view source) }
    requires sizes { sizes.now ≡ source_sizes project.now (source_view source) }
    ensures checked { IfOk result (λ checked. IsChecked project.now checked) }
    ensures same { IfOk result (λ checked. checked.source ≡ source) }
    ensures refused { IfErr result (λ error. TellsRefusal (program_in project.now source) error) }
{
    let variables = project.node.variables.as_slice();
    let need = cells_of(variables, sizes);
    let have = u64::from(project.node.cells);
    if have < need {
        return Err(CheckError::VariablesFull { need, have });
    }
    let places = places_of(alloc, variables, source.vars.as_slice(), sizes)?;
    match far_subroutine(alloc, &source, project, places.as_slice())? {
        Some(far) => Err(CheckError::SubroutineFar {
            at: far.at,
            start: far.start,
        }),
        None => Ok(Checked {
            source,
            places,
            cells: need as u32,
        }),
    }
}
