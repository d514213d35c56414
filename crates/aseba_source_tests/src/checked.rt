//! What a check tells of sources by hand: where their variables lie, and how large their plain code is.
ghost use Rattle.std.specs.Prelude.{◌<◌, length, IfOk};
ghost use Rattle.aseba_check.specs.Accepted.{IsChecked};
ghost use Rattle.aseba_tree.specs.Inside.{InsideProject};
ghost use Rattle.aseba_tree.specs.Shape.{IsTree};
ghost use Rattle.aseba_tree.specs.View.{source_view};

use aseba_check::{CheckError, Checked, check, numbers};
use aseba_describe::read_project;
use aseba_lexer::{end_of, lex};
use aseba_parser::parse;
use aseba_tree::{Pos, Project, Source};
use std::alloc::Global;
use std::test::Fail;

/// The project that a text spells, which keeps to the limits.
fn project(alloc: Global, text: &[u8]) -> Result<Project, Fail>
    ensures { IfOk result InsideProject }
{
    let project = read_project(alloc, text)?;
    if project.inside() {
        Ok(project)
    } else {
        Err(Fail::from("the project is too large"))
    }
}

/// The tree that a text spells.
fn tree(alloc: Global, text: &[u8], project: &Project) -> Result<Source, Fail>
    requires { length text.now < 4294967295 }
    ensures { IfOk result (λ source. IsTree (source_view source)) }
{
    let tokens = lex(alloc, text)?;
    let source = parse(alloc, tokens.as_slice(), end_of(text), project)?;
    Ok(source)
}

/// The answer for a source.
fn answer(
    alloc: Global,
    text: &[u8],
    project: &Project,
) -> Result<Result<Checked, CheckError>, Fail>
    requires { InsideProject project.now }
    ensures { IfOk result (λ answer. IfOk answer (IsChecked project.now)) }
{
    if text.len() > 1000 {
        return Err(Fail::from("the source is too long"));
    }
    let source = tree(alloc, text, project)?;
    Ok(check(alloc, source, project))
}

/// A sound source that was checked.
pub fn checked_in(alloc: Global, text: &[u8], project: &Project) -> Result<Checked, Fail>
    requires { InsideProject project.now }
    ensures { IfOk result (IsChecked project.now) }
{
    match answer(alloc, text, project)? {
        Ok(checked) => Ok(checked),
        Err(_) => Err(Fail::from("a sound source is refused")),
    }
}

/// A node whose one variable takes 34 of so many cells.
fn narrow(alloc: Global, cells: u16) -> Result<Project, Fail>
    ensures { IfOk result InsideProject }
{
    let text = format!(in alloc;
        "node sim\ncode 2048\nvars {cells}\nstack 64\nid 1\nvariable node 34\n"
    )?;
    project(alloc, text.as_bytes())
}

#[test]
fn variables_stand_behind_those_of_the_node(rt: HostRuntime) -> Result<(), Fail> {
    let project = narrow(rt.alloc(), 35)?;
    let Ok(checked) = answer(rt.alloc(), b"\nvar b", &project)? else {
        return Err(Fail::from("a sound source is refused"));
    };
    let [first, second] = checked.places.as_slice() else {
        return Err(Fail::from("two variables have no two places"));
    };
    assert_eq!(rt; (first.start, first.size), (0, 34));
    assert_eq!(rt; (second.start, second.size), (34, 1));
    assert_eq!(rt; checked.cells, 35);
    Ok(())
}

fn refusal(alloc: Global, text: &[u8], cells: u16) -> Result<Option<CheckError>, Fail> {
    let project = narrow(alloc, cells)?;
    Ok(answer(alloc, text, &project)?.err())
}

#[test]
fn a_name_of_the_node_and_one_cell_too_many_are_refused(rt: HostRuntime) -> Result<(), Fail> {
    let at = Pos { line: 2, col: 5 };
    let twice = refusal(rt.alloc(), b"\nvar node", 35)?;
    assert_eq!(rt; twice, Some(CheckError::Duplicate { at }));
    let full = refusal(rt.alloc(), b"\nvar b", 34)?;
    assert_eq!(rt;
        full,
        Some(CheckError::VariablesFull { need: 35, have: 34 })
    );
    Ok(())
}

/// The words, the stack cells and the temporaries of a sound source's plain code.
fn counted(alloc: Global, text: &[u8]) -> Result<(u64, u64, u64), Fail> {
    let project = project(alloc, b"node sim\ncode 2048\nvars 1024\nstack 64\nid 1\n")?;
    let Ok(checked) = answer(alloc, text, &project)? else {
        return Err(Fail::from("a sound source is refused"));
    };
    let numbers = numbers(alloc, &checked, &project)?;
    Ok((numbers.size, numbers.depth, numbers.room))
}

/// Three words of the event table, two numbers that are stored, two cells that are loaded and
/// stored, and a last word.
#[test]
fn a_vector_goes_through_temporaries(rt: HostRuntime) -> Result<(), Fail> {
    assert_eq!(rt; counted(rt.alloc(), b"var x[2] = [1, 2]")?, (12, 1, 2));
    Ok(())
}

/// A call each on the stack, and three cells.
#[test]
fn calls_lie_on_the_stack_with_what_they_lead_to(rt: HostRuntime) -> Result<(), Fail> {
    let text = b"var x callsub a sub a callsub b sub b x = x + (x + x)";
    assert_eq!(rt; counted(rt.alloc(), text)?, (14, 5, 0));
    Ok(())
}
