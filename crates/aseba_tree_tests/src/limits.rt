//! Nodes and projects at their limits and one past them.
use aseba_tree::{Const, Description, Local, Native, Param, Project, Sized};
use aseba_words::{List, Mem, Name};
use std::alloc::Global;
use std::test::Fail;

fn name(alloc: Global) -> Result<Name, Mem> {
    Name::new(alloc, b"led".as_slice())
}

/// A list of one element.
fn alone<T: Drop>(alloc: Global, value: T) -> Result<List<T>, Mem> {
    let mut list = List::new(alloc);
    match list.push(value) {
        Ok(()) => Ok(list),
        Err(_) => Err(Mem),
    }
}

/// A node with the least of everything.
fn node(alloc: Global) -> Result<Description, Mem> {
    let name = name(alloc)?;
    Ok(Description {
        name,
        code: 4,
        stack: 1,
        cells: 1,
        variables: List::new(alloc),
        locals: List::new(alloc),
        natives: List::new(alloc),
    })
}

fn project(alloc: Global) -> Result<Project, Mem> {
    let node = node(alloc)?;
    Ok(Project {
        node,
        id: 0,
        events: List::new(alloc),
        consts: List::new(alloc),
    })
}

/// A name of that many bytes.
fn long(alloc: Global, length: usize) -> Result<Name, Mem> {
    let bytes = vec![in alloc; b'a'; length]?;
    Name::new(alloc, bytes.as_slice())
}

fn sized(alloc: Global, length: usize, size: u16) -> Result<Sized, Mem> {
    let name = long(alloc, length)?;
    Ok(Sized { name, size })
}

fn local(alloc: Global, name: usize, text: usize) -> Result<Local, Mem> {
    let name = long(alloc, name)?;
    let text = long(alloc, text)?;
    Ok(Local { name, text })
}

fn native(alloc: Global, name: usize, text: usize) -> Result<Native, Mem> {
    let name = long(alloc, name)?;
    let text = long(alloc, text)?;
    Ok(Native {
        name,
        text,
        params: List::new(alloc),
    })
}

fn param(alloc: Global, length: usize, size: i16) -> Result<Param, Mem> {
    let name = long(alloc, length)?;
    Ok(Param { size, name })
}

#[test]
fn numbers_of_a_node(rt: HostRuntime) -> Result<(), Fail> {
    let mut d = node(rt.alloc())?;
    for (code, inside) in [(3, false), (4, true), (32767, true), (32768, false)] {
        d.code = code;
        assert_eq!(rt; d.inside(), inside, "code {code}");
    }
    d.code = 4;
    for (stack, inside) in [(0, false), (1, true), (1024, true), (1025, false)] {
        d.stack = stack;
        assert_eq!(rt; d.inside(), inside, "stack {stack}");
    }
    d.stack = 1;
    for (cells, inside) in [(0, false), (1, true), (4096, true), (4097, false)] {
        d.cells = cells;
        assert_eq!(rt; d.inside(), inside, "cells {cells}");
    }
    Ok(())
}

fn node_named(alloc: Global, length: usize) -> Result<bool, Mem> {
    let mut d = node(alloc)?;
    d.name = long(alloc, length)?;
    Ok(d.inside())
}

fn node_of_variables(alloc: Global, cells: u16, variables: List<Sized>) -> Result<bool, Mem> {
    let mut d = node(alloc)?;
    d.cells = cells;
    d.variables = variables;
    Ok(d.inside())
}

fn with_local(alloc: Global, name: usize, text: usize) -> Result<bool, Mem> {
    let mut d = node(alloc)?;
    d.locals = alone(alloc, local(alloc, name, text)?)?;
    Ok(d.inside())
}

fn with_native(alloc: Global, native: Native) -> Result<bool, Mem> {
    let mut d = node(alloc)?;
    d.natives = alone(alloc, native)?;
    Ok(d.inside())
}

fn with_variable(alloc: Global, length: usize, size: u16) -> Result<bool, Mem> {
    node_of_variables(alloc, 4096, alone(alloc, sized(alloc, length, size)?)?)
}

#[test]
fn names_of_a_node(rt: HostRuntime) -> Result<(), Fail> {
    let alloc = rt.alloc();
    for (length, inside) in [(0, true), (255, true), (256, false)] {
        assert_eq!(rt; node_named(alloc, length)?, inside, "name {length}");
        assert_eq!(rt;
            with_variable(alloc, length, 1)?,
            inside,
            "variable {length}"
        );
        assert_eq!(rt; with_local(alloc, length, 1)?, inside, "local {length}");
        assert_eq!(rt;
            with_local(alloc, 1, length)?,
            inside,
            "text of a local {length}"
        );
        assert_eq!(rt;
            with_native(alloc, native(alloc, length, 1)?)?,
            inside,
            "native {length}"
        );
        assert_eq!(rt;
            with_native(alloc, native(alloc, 1, length)?)?,
            inside,
            "text {length}"
        );
    }
    Ok(())
}

fn with_param(alloc: Global, length: usize, size: i16) -> Result<bool, Mem> {
    let mut called = native(alloc, 1, 1)?;
    called.params = alone(alloc, param(alloc, length, size)?)?;
    with_native(alloc, called)
}

#[test]
fn parameters(rt: HostRuntime) -> Result<(), Fail> {
    let rows = [
        (1, -1, true),
        (1, 0, false),
        (1, i16::MIN, true),
        (1, i16::MAX, true),
        (255, 1, true),
        (256, 1, false),
    ];
    for (length, size, inside) in rows {
        assert_eq!(rt;
            with_param(rt.alloc(), length, size)?,
            inside,
            "{length} {size}"
        );
    }
    Ok(())
}

/// A native of that many parameters with names of that length.
fn with_params(alloc: Global, count: u32, length: usize) -> Result<bool, Mem> {
    let mut called = native(alloc, 1, 1)?;
    for _ in 0..count {
        if called.params.push(param(alloc, length, 1)?).is_err() {
            return Err(Mem);
        }
    }
    with_native(alloc, called)
}

/// A message takes a byte and a name, a byte and a text, and two bytes for the count; a parameter
/// takes two bytes more for its size, and one for the length of its name.
#[test]
fn message_of_a_native(rt: HostRuntime) -> Result<(), Fail> {
    let alloc = rt.alloc();
    assert!(rt; with_native(alloc, native(alloc, 255, 253)?)?);
    assert!(rt; !with_native(alloc, native(alloc, 255, 254)?)?);
    assert!(rt; with_params(alloc, 2, 250)?);
    assert!(rt; !with_params(alloc, 2, 251)?);
    assert!(rt; with_params(alloc, 16, 28)?);
    assert!(rt; !with_params(alloc, 16, 29)?);
    assert!(rt; !with_params(alloc, 17, 1)?);
    Ok(())
}

fn with_locals(alloc: Global, count: u32) -> Result<bool, Mem> {
    let mut d = node(alloc)?;
    for _ in 0..count {
        if d.locals.push(local(alloc, 1, 1)?).is_err() {
            return Err(Mem);
        }
    }
    Ok(d.inside())
}

fn with_natives(alloc: Global, count: u32) -> Result<bool, Mem> {
    let mut d = node(alloc)?;
    for _ in 0..count {
        if d.natives.push(native(alloc, 1, 1)?).is_err() {
            return Err(Mem);
        }
    }
    Ok(d.inside())
}

/// A list of that many entries of that size.
fn many(alloc: Global, count: u32, size: u16) -> Result<List<Sized>, Mem> {
    let mut list = List::new(alloc);
    for _ in 0..count {
        if list.push(sized(alloc, 1, size)?).is_err() {
            return Err(Mem);
        }
    }
    Ok(list)
}

#[test]
fn counts_of_a_node(rt: HostRuntime) -> Result<(), Fail> {
    let alloc = rt.alloc();
    assert!(rt; with_locals(alloc, 64)?);
    assert!(rt; !with_locals(alloc, 65)?);
    assert!(rt; with_natives(alloc, 64)?);
    assert!(rt; !with_natives(alloc, 65)?);
    assert!(rt; node_of_variables(alloc, 4096, many(alloc, 256, 1)?)?);
    assert!(rt; !node_of_variables(alloc, 4096, many(alloc, 257, 1)?)?);
    Ok(())
}

#[test]
fn named_variables(rt: HostRuntime) -> Result<(), Fail> {
    let alloc = rt.alloc();
    for (size, inside) in [(0, false), (1, true), (4096, true), (4097, false)] {
        assert_eq!(rt; with_variable(alloc, 1, size)?, inside, "size {size}");
    }
    assert!(rt; node_of_variables(alloc, 100, many(alloc, 4, 25)?)?);
    assert!(rt; !node_of_variables(alloc, 99, many(alloc, 4, 25)?)?);
    Ok(())
}

fn with_events(alloc: Global, events: List<Sized>) -> Result<bool, Mem> {
    let mut p = project(alloc)?;
    p.events = events;
    Ok(p.inside())
}

#[test]
fn events(rt: HostRuntime) -> Result<(), Fail> {
    let alloc = rt.alloc();
    assert!(rt; with_events(alloc, many(alloc, 256, 0)?)?);
    assert!(rt; !with_events(alloc, many(alloc, 257, 0)?)?);
    assert!(rt; with_events(alloc, many(alloc, 1, 256)?)?);
    assert!(rt; !with_events(alloc, many(alloc, 1, 257)?)?);
    assert!(rt; with_events(alloc, alone(alloc, sized(alloc, 255, 1)?)?)?);
    assert!(rt; !with_events(alloc, alone(alloc, sized(alloc, 256, 1)?)?)?);
    Ok(())
}

fn with_consts(alloc: Global, count: u32, length: usize) -> Result<bool, Mem> {
    let mut p: Project = project(alloc)?;
    for _ in 0..count {
        let name = long(alloc, length)?;
        if p.consts.push(Const { name, value: -7 }).is_err() {
            return Err(Mem);
        }
    }
    Ok(p.inside())
}

fn with_node(alloc: Global, node: Description) -> Result<bool, Mem> {
    let mut p = project(alloc)?;
    p.node = node;
    Ok(p.inside())
}

#[test]
fn constants(rt: HostRuntime) -> Result<(), Fail> {
    let alloc = rt.alloc();
    assert!(rt; with_consts(alloc, 512, 1)?);
    assert!(rt; !with_consts(alloc, 513, 1)?);
    assert!(rt; with_consts(alloc, 1, 255)?);
    assert!(rt; !with_consts(alloc, 1, 256)?);
    let mut small = node(alloc)?;
    small.code = 3;
    assert!(rt; !with_node(alloc, small)?);
    Ok(())
}
