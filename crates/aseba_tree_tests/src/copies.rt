//! Copies: want of memory apart, they are there, and print as what they copy, which shows every field.
use crate::syntax::project;
use aseba_describe::read_project;
use aseba_lexer::{end_of, lex};
use aseba_parser::parse;
use aseba_tree::{Core, CoreExpr, CoreForm, CorePart, CoreStmt, CoreTarget, Source};
use aseba_words::{Binary, List, Mem, Unary};
use sqlite_items::Boxed;
use std::alloc::{AllocError, Global};
use std::fmt::Debug;
use std::test::Fail;

/// A source with each form of a statement, a target and an expression.
const SOURCE: &[u8] = b"var a[4] = [1, 2, -3, 9 / 2] var x
x = 2 a[1] *= x a[0:1] = a[2:3] x--
if x == 1 then else return end
when x do return end
while not x do return end
for x in 1:9 step 2 do return end
emit ping
emit pair [4, a[x]]
callsub s
call f(6, a)
sub s return
onevent ping return
";

/// A project with each kind of line.
const PROJECT: &[u8] = b"node led
code 4
vars 9
stack 1
id 3
variable v 2
local l text
native n -1 p 2 q ; about
event e 2
const c -7
";

/// Whether two values print alike.
fn alike<T: Debug>(alloc: Global, value: &T, copy: &T) -> Result<bool, AllocError> {
    let value = format!(in alloc; "{value:?}")?;
    let copy = format!(in alloc; "{copy:?}")?;
    Ok(value.as_str() == copy.as_str())
}

#[test]
fn tokens(rt: HostRuntime) -> Result<(), Fail> {
    let alloc = rt.alloc();
    for token in lex(alloc, SOURCE)?.as_slice() {
        let copy = token.copy(alloc)?;
        assert!(rt; alike(alloc, token, &copy)?);
    }
    Ok(())
}

fn source(alloc: Global) -> Result<Source, Fail> {
    let tokens = lex(alloc, SOURCE)?;
    let project = project(alloc)?;
    Ok(parse(alloc, tokens.as_slice(), end_of(SOURCE), &project)?)
}

#[test]
fn sources(rt: HostRuntime) -> Result<(), Fail> {
    let alloc = rt.alloc();
    let source = source(alloc)?;
    let copy = source.copy(alloc)?;
    assert!(rt; alike(alloc, &source, &copy)?);
    Ok(())
}

#[test]
fn projects(rt: HostRuntime) -> Result<(), Fail> {
    let alloc = rt.alloc();
    let project = read_project(alloc, PROJECT)?;
    let copy = project.copy(alloc)?;
    assert!(rt; alike(alloc, &project, &copy)?);
    Ok(())
}

/// A list with one more element.
fn added<T: Drop>(mut list: List<T>, value: T) -> Result<List<T>, Mem> {
    match list.push(value) {
        Ok(()) => Ok(list),
        Err(_) => Err(Mem),
    }
}

fn alone<T: Drop>(alloc: Global, value: T) -> Result<List<T>, Mem> {
    added(List::new(alloc), value)
}

fn core_boxed(alloc: Global, value: i16) -> Result<Boxed<CoreExpr>, Mem> {
    Ok(Boxed::new(alloc, CoreExpr::Number(value))?)
}

fn core_indirect(alloc: Global) -> Result<CoreExpr, Mem> {
    Ok(CoreExpr::Indirect(5, 6, core_boxed(alloc, 1)?))
}

fn core_one(alloc: Global) -> Result<CoreExpr, Mem> {
    Ok(CoreExpr::One(Unary::Abs, core_boxed(alloc, 1)?))
}

fn core_two(alloc: Global) -> Result<CoreExpr, Mem> {
    let left = core_boxed(alloc, 1)?;
    Ok(CoreExpr::Two(Binary::Sub, left, core_boxed(alloc, 2)?))
}

fn core_body(alloc: Global) -> Result<List<CoreStmt>, Mem> {
    alone(alloc, core_stmt(CoreForm::Return))
}

fn core_stmt(form: CoreForm) -> CoreStmt {
    CoreStmt { line: 7, form }
}

fn core_store(alloc: Global) -> Result<CoreForm, Mem> {
    let target = Boxed::new(alloc, CoreTarget::Indirect(5, 6, CoreExpr::Cell(1)))?;
    Ok(CoreForm::Store(target, core_boxed(alloc, 8)?))
}

/// A store of a value into a cell.
fn core_kept(alloc: Global, value: CoreExpr) -> Result<CoreForm, Mem> {
    let target = Boxed::new(alloc, CoreTarget::Cell(9))?;
    Ok(CoreForm::Store(target, Boxed::new(alloc, value)?))
}

fn core_branch(alloc: Global) -> Result<CoreForm, Mem> {
    let test = core_boxed(alloc, 1)?;
    Ok(CoreForm::If(test, List::new(alloc), core_body(alloc)?))
}

fn core_when(alloc: Global) -> Result<CoreForm, Mem> {
    let test = core_boxed(alloc, 1)?;
    Ok(CoreForm::When(test, core_body(alloc)?))
}

fn core_while(alloc: Global) -> Result<CoreForm, Mem> {
    let test = core_boxed(alloc, 1)?;
    Ok(CoreForm::While(test, core_body(alloc)?))
}

fn core_call(alloc: Global) -> Result<CoreForm, Mem> {
    Ok(CoreForm::Call(5, List::from_slice(alloc, [6, 7].as_slice())?))
}

fn core_part(alloc: Global) -> Result<CorePart, Mem> {
    let body = core_body(alloc)?;
    Ok(CorePart {
        line: 3,
        event: Some(2),
        body,
    })
}

/// A core with each form of a statement, a target and an expression.
fn core(alloc: Global) -> Result<Core, Mem> {
    let mut init = alone(alloc, core_stmt(core_store(alloc)?))?;
    for value in [core_indirect(alloc)?, core_one(alloc)?, core_two(alloc)?] {
        init = added(init, core_stmt(core_kept(alloc, value)?))?;
    }
    init = added(init, core_stmt(core_branch(alloc)?))?;
    init = added(init, core_stmt(core_when(alloc)?))?;
    init = added(init, core_stmt(core_while(alloc)?))?;
    init = added(init, core_stmt(CoreForm::Emit(1, 2, 3)))?;
    init = added(init, core_stmt(CoreForm::CallSub(4)))?;
    init = added(init, core_stmt(core_call(alloc)?))?;
    let parts = alone(alloc, core_part(alloc)?)?;
    Ok(Core {
        init,
        parts,
        cells: 34,
        room: 1,
        size: 12,
        depth: 2,
    })
}

#[test]
fn cores(rt: HostRuntime) -> Result<(), Fail> {
    let alloc = rt.alloc();
    let core = core(alloc)?;
    let copy = core.copy(alloc)?;
    assert!(rt; alike(alloc, &core, &copy)?);
    Ok(())
}
