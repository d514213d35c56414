//! Scripts, read from their text.
ghost use Rattle.std.specs.Prelude.{◌+◌, ◌<◌, All, IfOk};
ghost use Rattle.aseba_tree.specs.Inside.{InsideProject};

use aseba_describe::default_project;
use aseba_driver::{Act, Entry, ScriptError, read_script};
use aseba_tree::{Placed, Project};
use aseba_words::{List, Mem, Name};
use std::alloc::Global;
use std::process::Abort;
use std::test::Fail;

/// The default project, which keeps to the limits.
pub fn project(alloc: Global) -> Result<Project, Fail>
    ensures { IfOk result (λ project. InsideProject project) }
{
    let project = default_project(alloc)?;
    if project.inside() {
        Ok(project)
    } else {
        Err(Fail::from("the project is too large"))
    }
}

/// The places of the node's variables and of `x` with one cell.
pub fn places(alloc: Global) -> Result<Vec<Placed>, Mem>
    ensures { IfOk result (λ places. All (λ place. place.start + place.size < 65536) places.items) }
{
    let mut places = Vec::new(alloc);
    places.push(placed(alloc, b"_id", 0, 1)?)?;
    places.push(placed(alloc, b"event.source", 1, 1)?)?;
    places.push(placed(alloc, b"event.args", 2, 32)?)?;
    places.push(placed(alloc, b"x", 34, 1)?)?;
    Ok(places)
}

/// Those places, and behind them that of `a` with three cells.
fn more_places(alloc: Global) -> Result<Vec<Placed>, Mem>
    ensures { IfOk result (λ places. All (λ place. place.start + place.size < 65536) places.items) }
{
    let mut places = places(alloc)?;
    places.push(placed(alloc, b"a", 35, 3)?)?;
    Ok(places)
}

fn placed(alloc: Global, name: &[u8], start: u16, size: u16) -> Result<Placed, Mem>
    requires { start + size < 65536 }
    ensures { IfOk result (λ place. place.start + place.size < 65536) }
{
    Ok(Placed {
        name: Name::new(alloc, name)?,
        start,
        size,
    })
}

fn read(alloc: Global, text: &[u8]) -> Result<Result<List<Entry>, ScriptError>, Fail> {
    let project = project(alloc)?;
    let places = more_places(alloc)?;
    Ok(read_script(alloc, text, &project, places.as_slice()))
}

#[test]
fn good_scripts(rt: HostRuntime) -> Result<(), Fail> {
    for (text, count) in [
        (b"".as_slice(), 0),
        (b"\n# nothing\n\n".as_slice(), 0),
        (b"10 event ping\n12 event ping".as_slice(), 2),
        (b"0 event pair 4 -5\r\n0 set x 0 50\r\n".as_slice(), 2),
        (
            b"5 event ping from 9\n5 event pong from 65535 1 -2\n".as_slice(),
            2,
        ),
        (b"100000000 event ping 32767 -32768".as_slice(), 1),
        (b"1 set a 0 1 2 3\n1 set event.args 31 0".as_slice(), 2),
    ] {
        let script = read(rt.alloc(), text)?;
        assert!(rt; script.is_ok(), "a good script is refused");
        let read = script.map_or(0, |script| script.as_slice().len());
        assert_eq!(rt; read, count);
    }
    Ok(())
}

#[test]
fn bad_lines(rt: HostRuntime) -> Result<(), Fail> {
    for (text, line) in [
        (b"01 event ping".as_slice(), 1),
        (b"-0 event ping".as_slice(), 1),
        (b"100000001 event ping".as_slice(), 1),
        (b"1 event nobody".as_slice(), 1),
        (b"1 event 0".as_slice(), 1),
        (b"1 event ping 01".as_slice(), 1),
        (b"1 event ping -0".as_slice(), 1),
        (b"1 event ping 32768".as_slice(), 1),
        (b"1 event ping -32769".as_slice(), 1),
        (b"1 event ping from".as_slice(), 1),
        (b"1 event ping from 65536".as_slice(), 1),
        (b"1 event ping from 09".as_slice(), 1),
        (b"1 event ping  1".as_slice(), 1),
        (b"1 event ping ".as_slice(), 1),
        (b"1 event ping\r".as_slice(), 1),
        (b"1 set x 0".as_slice(), 1),
        (b"1 set x 1 5".as_slice(), 1),
        (b"1 set a 2 1 2".as_slice(), 1),
        (b"1 set a 00 1".as_slice(), 1),
        (b"1 set y 0 1".as_slice(), 1),
        (b"1 set ping 0 1".as_slice(), 1),
        (b"1 say ping".as_slice(), 1),
        (b" 1 event ping".as_slice(), 1),
        (b"1 event".as_slice(), 1),
        (b"5 event ping\n4 event ping\n".as_slice(), 2),
        (b"1 event ping\n\n# nothing\r\n0 event ping".as_slice(), 4),
    ] {
        match read(rt.alloc(), text)? {
            Ok(_) => panic!(rt; "line {line} was taken"),
            Err(error) => assert_eq!(rt; error, ScriptError::Line { n: line }),
        }
    }
    Ok(())
}

#[test]
fn arguments_up_to_256(rt: HostRuntime) -> Result<(), Fail> {
    let mut text = Vec::from_slice(rt.alloc(), b"7 event ping")?;
    for _ in 0..256 {
        text.extend_from_slice(b" 1")?;
    }
    assert!(rt; read(rt.alloc(), text.as_slice())?.is_ok());
    text.extend_from_slice(b" 1")?;
    assert!(rt; read(rt.alloc(), text.as_slice())?.is_err());
    Ok(())
}

#[test]
fn numbers_of_what_is_named(rt: HostRuntime) -> Result<(), Fail> {
    let script = read(rt.alloc(), b"3 event pair from 7 1 -2\n9 set a 1 5 6")??;
    let [event, set] = script.as_slice() else {
        panic!(rt; "the script has not two entries");
    };
    assert_eq!(rt; event.time, 3);
    assert_eq!(rt; event.name.as_bytes(), b"pair".as_slice());
    match &event.act {
        Act::Event {
            event,
            source,
            args,
        } => {
            assert_eq!(rt; *event, 2);
            assert_eq!(rt; *source, 7);
            assert_eq!(rt; args.as_slice(), [1, -2].as_slice());
        }
        Act::Set { .. } => panic!(rt; "an event is expected"),
    }
    assert_eq!(rt; set.time, 9);
    match &set.act {
        Act::Event { .. } => panic!(rt; "values are expected"),
        Act::Set { start, values } => {
            assert_eq!(rt; *start, 36);
            assert_eq!(rt; values.as_slice(), [5, 6].as_slice());
        }
    }
    Ok(())
}
