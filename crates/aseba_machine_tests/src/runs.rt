//! Small programs of words, run tick by tick.
use aseba_vm::{Arrival, Machine, NodeFault, Notice, OutOfCells, OutOfCode, Shape, Tick};
use std::process::Abort;
use std::test::Fail;

/// The address of a program's first variable, behind the node's own.
const VARIABLE: usize = 34;

const SHAPE: Shape = Shape {
    code: 2048,
    cells: 1024,
    stack: 64,
    id: Some(0),
    source: Some(1),
    args_at: 2,
    args_len: 32,
};

/// Does so many ticks, and counts those that are more than quiet.
fn run(machine: &mut Machine, ticks: u32) -> u32 {
    let mut counted: u32 = 0;
    for _ in 0..ticks {
        let counts = match machine.tick() {
            Tick::Idle | Tick::Paused | Tick::Quiet => 0,
            Tick::Stored { address } => u32::from(usize::from(address) <= VARIABLE),
            Tick::Effect | Tick::Sent(_) => 1,
        };
        counted = counted.saturating_add(counts);
    }
    counted
}

fn variable(rt: &impl Abort, machine: &Machine) -> i16 {
    let cell = machine.cells().get(VARIABLE).copied();
    assert!(rt; cell.is_some());
    cell.unwrap_or(0)
}

#[test]
fn counts_in_a_loop(rt: HostRuntime) -> Result<(), Fail> {
    let words = [
        0x0003, 0xffff, 0x0003, 0x1001, 0x4022, 0x3022, 0x1002, 0xa00f, 0x0007, 0x3022, 0x1001,
        0x8002, 0x4022, 0x9ff8, 0x0000,
    ];
    let mut machine = Machine::new(rt.alloc(), &SHAPE, 1)?;
    machine.load(0, &words)?;
    machine.reset(false);
    assert_eq!(rt; run(&mut machine, 30), 9);
    assert_eq!(rt; variable(&rt, &machine), 3);
    Ok(())
}

#[test]
fn calls_a_subroutine(rt: HostRuntime) -> Result<(), Fail> {
    let words = [
        0x0003, 0xffff, 0x0003, 0xd005, 0x0000, 0x1005, 0x4022, 0xe000,
    ];
    let mut machine = Machine::new(rt.alloc(), &SHAPE, 1)?;
    machine.load(0, &words)?;
    machine.reset(false);
    assert_eq!(rt; run(&mut machine, 10), 4);
    assert_eq!(rt; variable(&rt, &machine), 5);
    assert!(rt; !machine.active());
    Ok(())
}

#[test]
fn remembers_a_condition(rt: HostRuntime) -> Result<(), Fail> {
    let words = [
        0x0005, 0xffff, 0x0005, 0x0002, 0x0006, 0x0000, 0x1000, 0x5002, 0x0020, 0x1001, 0xa10a,
        0x0006, 0x3022, 0x1001, 0x8002, 0x4022, 0x0000,
    ];
    let mut machine = Machine::new(rt.alloc(), &SHAPE, 1)?;
    machine.load(0, &words)?;
    machine.reset(false);
    assert_eq!(rt; run(&mut machine, 10), 1);
    for (first, counted) in [(0, 2), (1, 3), (1, 2), (0, 2), (1, 3)] {
        assert_eq!(rt; machine.arrive(2, 0, &[first]), Arrival::Started);
        assert_eq!(rt; run(&mut machine, 20), counted);
    }
    assert_eq!(rt; variable(&rt, &machine), 2);
    Ok(())
}

#[test]
fn kills_inside_an_expression(rt: HostRuntime) -> Result<(), Fail> {
    let words = [
        0x0005, 0xffff, 0x0005, 0x0000, 0x0008, 0x1001, 0x4022, 0x0000, 0x3022, 0x1001, 0x8002,
        0x4022, 0xb001, 0x0000, 0x0000, 0x0000,
    ];
    let mut machine = Machine::new(rt.alloc(), &SHAPE, 1)?;
    machine.load(0, &words)?;
    machine.reset(false);
    assert_eq!(rt; run(&mut machine, 10), 2);
    assert_eq!(rt; machine.arrive(0, 7, &[]), Arrival::Started);
    assert_eq!(rt; run(&mut machine, 2), 0);
    assert_eq!(rt; machine.arrive(1, 7, &[]), Arrival::NoHandler);
    machine.set_paused(true);
    assert_eq!(rt; machine.arrive(0, 8, &[]), Arrival::Dropped);
    assert_eq!(rt; machine.tick(), Tick::Paused);
    machine.set_paused(false);
    assert_eq!(rt; machine.arrive(0, 9, &[]), Arrival::Killed { pc: 10 });
    assert_eq!(rt; machine.cells().get(1).copied(), Some(9));
    assert_eq!(rt; run(&mut machine, 4), 1);
    let emit = Notice::Emit {
        event: 1,
        start: 0,
        len: 0,
    };
    assert_eq!(rt; machine.tick(), Tick::Sent(emit));
    assert_eq!(rt; run(&mut machine, 3), 1);
    assert_eq!(rt; variable(&rt, &machine), 2);
    Ok(())
}

#[test]
fn stops_at_a_return_without_a_call(rt: HostRuntime) -> Result<(), Fail> {
    let shape = Shape { code: 16, ..SHAPE };
    let mut machine = Machine::new(rt.alloc(), &shape, 1)?;
    machine.load(0, &[0x0003, 0xffff, 0x0003, 0xe000])?;
    machine.reset(false);
    let error = Notice::NodeError {
        pc: 3,
        fault: NodeFault::Stack,
    };
    assert_eq!(rt; machine.tick(), Tick::Sent(error));
    assert!(rt; machine.paused());
    assert_eq!(rt; machine.pc(), 3);
    assert_eq!(rt; machine.tick(), Tick::Idle);
    Ok(())
}

#[test]
fn calls_a_native(rt: HostRuntime) -> Result<(), Fail> {
    // The number 0 copies cells: to the first variable, from the cell of the id, one cell.
    let words = [
        0x0003, 0xffff, 0x0003, 0x2000, 0x0022, 0x2000, 0x0000, 0x1001, 0xc000, 0x0000,
    ];
    let mut machine = Machine::new(rt.alloc(), &SHAPE, 9)?;
    machine.load(0, &words)?;
    machine.reset(false);
    assert_eq!(rt; run(&mut machine, 10), 2);
    assert_eq!(rt; variable(&rt, &machine), 9);
    machine.load(7, &[0x1000])?;
    machine.reset(false);
    assert_eq!(rt; run(&mut machine, 3), 0);
    let error = Notice::NodeError {
        pc: 8,
        fault: NodeFault::Native,
    };
    assert_eq!(rt; machine.tick(), Tick::Sent(error));
    Ok(())
}

#[test]
fn stops_at_an_index_and_at_a_divisor(rt: HostRuntime) -> Result<(), Fail> {
    let mut machine = Machine::new(rt.alloc(), &SHAPE, 1)?;
    machine.load(
        0,
        &[
            0x0003, 0xffff, 0x0003, 0x1003, 0x4025, 0x1007, 0x3025, 0x6022, 0x0003, 0x0000,
        ],
    )?;
    machine.reset(false);
    assert_eq!(rt; run(&mut machine, 4), 0);
    let bounds = Notice::Bounds {
        pc: 7,
        size: 3,
        index: 3,
    };
    assert_eq!(rt; machine.tick(), Tick::Sent(bounds));
    machine.load(3, &[0x1001, 0x4022, 0x3022, 0x1000, 0x8005, 0x4022, 0x0000])?;
    machine.reset(false);
    assert_eq!(rt; run(&mut machine, 4), 1);
    assert_eq!(rt; machine.tick(), Tick::Sent(Notice::Division { pc: 7 }));
    assert_eq!(rt; variable(&rt, &machine), 1);
    Ok(())
}

#[test]
fn holds_what_is_written_until_the_end(rt: HostRuntime) -> Result<(), Fail> {
    let mut machine = Machine::new(rt.alloc(), &SHAPE, 1)?;
    machine.load(0, &[0x0003, 0xffff, 0x0003, 0x1001, 0x4022, 0x0000])?;
    machine.reset(false);
    machine.hold_write(34, &[50, 60])?;
    assert_eq!(rt; run(&mut machine, 2), 1);
    assert_eq!(rt; variable(&rt, &machine), 1);
    machine.stop();
    assert_eq!(rt; variable(&rt, &machine), 50);
    machine.hold_write(34, &[-1])?;
    assert_eq!(rt; variable(&rt, &machine), -1);
    let refused = OutOfCells {
        end: 1025,
        size: 1024,
    };
    assert_eq!(rt; machine.hold_write(1023, &[0, 0]), Err(refused));
    Ok(())
}

#[test]
fn refuses_words_behind_its_code(rt: HostRuntime) -> Result<(), Fail> {
    let mut machine = Machine::new(rt.alloc(), &SHAPE, 1)?;
    let refused = OutOfCode {
        end: 2049,
        size: 2048,
    };
    assert_eq!(rt; machine.load(2047, &[0, 0]), Err(refused));
    machine.load(2046, &[1, 2])?;
    assert_eq!(rt; machine.code().get(2047).copied(), Some(2));
    Ok(())
}
