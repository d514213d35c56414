//! Machines that are driven through scripts. The words, the scripts and the lines were worked by hand.
use crate::scripts::{places, project};
use aseba_driver::{Legend, Unwritten, drive, read_script};
use aseba_edge::MemorySink;
use aseba_target::shape;
use aseba_vm::Machine;
use aseba_words::List;
use std::alloc::Global;
use std::process::Abort;
use std::test::Fail;

/// `var x = 1`, and then `onevent ping`, `x = x + 1` and `emit pong` on lines of their own.
const KILLED: &[u16] = &[
    0x0005, 0xffff, 0x0005, 0x0000, 0x0008, 0x1001, 0x4022, 0x0000, 0x3022, 0x1001, 0x8002, 0x4022,
    0xb001, 0x0000, 0x0000, 0x0000,
];

/// The lines of these words, as far as they are told.
const KILLED_LINES: &[u32] = &[0, 0, 0, 0, 0, 1, 1, 1, 3, 3, 3, 3, 4, 4, 4, 4];

/// `var x = 1`, and then `onevent pair` and `x = x + event.args[0]`.
const PAIRED: &[u16] = &[
    0x0005, 0xffff, 0x0005, 0x0002, 0x0008, 0x1001, 0x4022, 0x0000, 0x3022, 0x1000, 0x5002, 0x0020,
    0x8002, 0x4022, 0x0000,
];

/// `var x = 1`, and then `onevent ping` and `x = x + 1`.
const ADDED: &[u16] = &[
    0x0005, 0xffff, 0x0005, 0x0000, 0x0008, 0x1001, 0x4022, 0x0000, 0x3022, 0x1001, 0x8002, 0x4022,
    0x0000,
];

/// What is written when words are driven through a script, with room for so many bytes.
fn driven(
    alloc: Global,
    words: &[u16],
    script: &[u8],
    ticks: u32,
    room: usize,
) -> Result<(Result<(), Unwritten>, MemorySink), Fail> {
    let project = project(alloc)?;
    let places = places(alloc)?;
    let script = read_script(alloc, script, &project, places.as_slice())?;
    let mut machine = Machine::new(alloc, &shape(&project), project.id)?;
    machine.load(0, words)?;
    machine.reset(false);
    if project.node.variables.as_slice().len() > places.len() {
        return Err(Fail::from("a place is missing"));
    }
    let legend = Legend {
        project: &project,
        places: places.as_slice(),
        cells: 35,
        lines: KILLED_LINES,
    };
    let mut out = MemorySink::new(alloc, room, List::new(alloc))?;
    let driven = drive(
        alloc,
        &mut machine,
        &legend,
        script.as_slice(),
        ticks,
        &mut out,
    );
    Ok((driven, out))
}

/// Expects these lines of a run that is written whole.
fn expect(
    rt: &impl Abort,
    alloc: Global,
    words: &[u16],
    script: &[u8],
    ticks: u32,
    lines: &[u8],
) -> Result<(), Fail> {
    let (driven, out) = driven(alloc, words, script, ticks, 1000)?;
    assert!(rt; driven.is_ok());
    assert_eq!(rt; out.bytes(), lines);
    Ok(())
}

#[test]
fn a_kill_in_an_expression(rt: HostRuntime) -> Result<(), Fail> {
    let lines =
        b"10 2 event ping\n12 2 killed 3\n12 2 event ping\n16 4 emit pong\nvar x 2\nend 20 5\n";
    let script = b"10 event ping\n12 event ping";
    expect(&rt, rt.alloc(), KILLED, script, 20, lines)
}

#[test]
fn entries_of_the_last_tick_and_behind_it(rt: HostRuntime) -> Result<(), Fail> {
    let script = b"5 event ping from 9\n7 event ping";
    let lines = b"5 2 event ping\nvar x 1\nend 7 2\n";
    expect(&rt, rt.alloc(), KILLED, script, 7, lines)?;
    let lines = b"5 2 event ping\n7 2 killed 3\n7 2 event ping\nvar x 1\nend 8 2\n";
    expect(&rt, rt.alloc(), KILLED, script, 8, lines)
}

#[test]
fn an_event_without_a_handler(rt: HostRuntime) -> Result<(), Fail> {
    let script = b"10 event pair 4 0\n11 event pong 9";
    let lines = b"10 2 event pair\n11 2 ignored pong\nvar x 5\nend 20 4\n";
    expect(&rt, rt.alloc(), PAIRED, script, 20, lines)
}

#[test]
fn a_value_that_waits(rt: HostRuntime) -> Result<(), Fail> {
    let script = b"10 event ping\n11 set x 0 50";
    let lines = b"10 2 event ping\n11 2 set x\nvar x 2\nend 14 3\n";
    expect(&rt, rt.alloc(), ADDED, script, 14, lines)?;
    let lines = b"10 2 event ping\n11 2 set x\nvar x 50\nend 20 4\n";
    expect(&rt, rt.alloc(), ADDED, script, 20, lines)
}

#[test]
fn idle_ticks_are_only_counted(rt: HostRuntime) -> Result<(), Fail> {
    let script = b"50000000 event ping\n99999999 set x 0 7";
    let lines = b"50000000 2 event ping\n99999999 4 set x\nvar x 7\nend 100000000 4\n";
    expect(&rt, rt.alloc(), ADDED, script, 100_000_000, lines)
}

#[test]
fn a_sink_that_is_full(rt: HostRuntime) -> Result<(), Fail> {
    let script = b"10 event ping\n12 event ping";
    let (driven, out) = driven(rt.alloc(), KILLED, script, 20, 25)?;
    assert_eq!(rt; driven, Err(Unwritten::WriteFault));
    assert_eq!(rt; out.bytes(), b"10 2 event ping\n12 2 kill".as_slice());
    Ok(())
}
