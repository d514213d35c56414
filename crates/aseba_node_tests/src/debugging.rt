//! The commands of the debugger, in each state, and the breakpoints.
use crate::talk::{LOOPS, Talk, all_said, new_node};
use aseba_message::Frame;
use aseba_words::List;
use std::alloc::Global;
use std::process::Abort;
use std::test::Fail;

/// A state: the lines that bring a node there.
type Before = &'static [&'static str];

const IDLE: Before = &[LOOPS];

const ACTIVE: Before = &[LOOPS, "0 a002 0700", "0 a003 0700", "ticks 5"];

const PAUSED: Before = &[LOOPS, "0 a002 0700"];

const PAUSED_IDLE: Before = &[LOOPS, "0 a004 0700"];

/// What a node tells of where it stands to each of the six commands, in their order.
fn commands(rt: &impl Abort, alloc: Global, before: Before, said: [Before; 6]) -> Result<(), Fail> {
    let lines = [
        "0 a002 0700",
        "0 a003 0700",
        "0 a004 0700",
        "0 a005 0700",
        "0 a006 0700",
        "0 a007 0700",
    ];
    for (place, line) in lines.iter().enumerate() {
        let talks = [Talk {
            what: *line,
            before,
            line: *line,
            said: said[place],
        }];
        all_said(rt, alloc, &talks)?;
    }
    Ok(())
}

#[test]
fn commands_to_a_node_without_code(rt: HostRuntime) -> Result<(), Fail> {
    let said: [Before; 6] = [
        &["7 900a 0000 0200"],
        &["7 900a 0000 0000"],
        &["7 900a 0000 0200"],
        &["7 900a 0000 0000"],
        &["7 900a 0000 0000"],
        &["7 900a 0000 0000"],
    ];
    commands(&rt, rt.alloc(), &[], said)
}

#[test]
fn commands_to_an_idle_node(rt: HostRuntime) -> Result<(), Fail> {
    let said: [Before; 6] = [
        &["7 900a 0500 0300"],
        &["7 900a 0000 0000"],
        &["7 900a 0000 0200"],
        &["7 900a 0000 0000"],
        &["7 900a 0000 0000"],
        &["7 900a 0000 0000"],
    ];
    commands(&rt, rt.alloc(), IDLE, said)
}

#[test]
fn commands_to_an_active_node(rt: HostRuntime) -> Result<(), Fail> {
    let said: [Before; 6] = [
        &["7 900a 0500 0300"],
        &["7 900a 0500 0100"],
        &["7 900a 0500 0300"],
        &["7 900a 0500 0100"],
        &["7 900a 0500 0000"],
        &["7 900a 0500 0100"],
    ];
    commands(&rt, rt.alloc(), ACTIVE, said)
}

#[test]
fn commands_to_a_paused_node(rt: HostRuntime) -> Result<(), Fail> {
    let said: [Before; 6] = [
        &["7 900a 0500 0300"],
        &["7 900a 0500 0100"],
        &["7 900a 0500 0300"],
        &["7 900a 0500 0300"],
        &["7 900a 0500 0000"],
        &["7 900a 0500 0300"],
    ];
    commands(&rt, rt.alloc(), PAUSED, said)
}

#[test]
fn commands_to_a_paused_node_where_no_handler_runs(rt: HostRuntime) -> Result<(), Fail> {
    let said: [Before; 6] = [
        &["7 900a 0500 0300"],
        &["7 900a 0000 0000"],
        &["7 900a 0000 0200"],
        &["7 900a 0000 0200"],
        &["7 900a 0000 0000"],
        &["7 900a 0000 0200"],
    ];
    commands(&rt, rt.alloc(), PAUSED_IDLE, said)
}

#[test]
fn a_step_tells_what_its_tick_sent_first(rt: HostRuntime) -> Result<(), Fail> {
    // The init code sends the first two cells as event 3, and ends.
    const SENDS: &str = "0 a001 0700 0000 0300 ffff 0300 03b0 0000 0200 0000";
    // Its first word is no instruction.
    const WRONG: &str = "0 a001 0700 0000 0300 ffff 0300 00f0";
    let talks = [
        Talk {
            what: "an event",
            before: &[SENDS, "0 a002 0700"],
            line: "0 a005 0700",
            said: &["7 0003 0700 0000", "7 900a 0600 0300"],
        },
        Talk {
            what: "the end of the handler",
            before: &[SENDS, "0 a002 0700", "0 a005 0700"],
            line: "0 a005 0700",
            said: &["7 900a 0600 0200"],
        },
        Talk {
            what: "an error",
            before: &[WRONG, "0 a002 0700"],
            line: "0 a005 0700",
            said: &["7 9009 0300 04 776f7264", "7 900a 0300 0200"],
        },
        Talk {
            what: "a breakpoint behind the step isn't looked at",
            before: &[SENDS, "0 a008 0700 0600", "0 a002 0700"],
            line: "0 a005 0700",
            said: &["7 0003 0700 0000", "7 900a 0600 0300"],
        },
    ];
    all_said(&rt, rt.alloc(), &talks)
}

#[test]
fn breakpoints(rt: HostRuntime) -> Result<(), Fail> {
    let talks = [
        Talk {
            what: "at the last word",
            before: &[],
            line: "0 a008 0700 1f00",
            said: &["7 900b 1f00 0100"],
        },
        Talk {
            what: "past the code",
            before: &[],
            line: "0 a008 0700 2000",
            said: &["7 900b 2000 0000"],
        },
        Talk {
            what: "one that is set is taken again",
            before: &["0 a008 0700 0300"],
            line: "0 a008 0700 0300",
            said: &["7 900b 0300 0100"],
        },
        Talk {
            what: "one is cleared",
            before: &[LOOPS, "0 a008 0700 0700"],
            line: "0 a009 0700 0700",
            said: &[],
        },
        Talk {
            what: "one that isn't set is cleared",
            before: &[],
            line: "0 a009 0700 0700",
            said: &[],
        },
        Talk {
            what: "all are cleared",
            before: &[LOOPS, "0 a008 0700 0700"],
            line: "0 a00a 0700",
            said: &[],
        },
        Talk {
            what: "one that was cleared stops nothing",
            before: &[LOOPS, "0 a008 0700 0700", "0 a009 0700 0700"],
            line: "9 0000",
            said: &[],
        },
        Talk {
            what: "nor does one when all were",
            before: &[LOOPS, "0 a008 0700 0700", "0 a00a 0700"],
            line: "9 0000",
            said: &[],
        },
        Talk {
            what: "it stops when another was cleared",
            before: &[LOOPS, "0 a008 0700 0700", "0 a009 0700 0600"],
            line: "9 0000",
            said: &["7 900a 0700 0300"],
        },
    ];
    all_said(&rt, rt.alloc(), &talks)
}

/// The answer to a breakpoint at a word: its counter and whether it was taken.
fn set(alloc: Global, node: &mut aseba_node::Node, pc: u16) -> Result<bool, Fail> {
    let [low, high] = pc.to_le_bytes();
    node.deliver(&Frame {
        source: 0,
        kind: 0xA008,
        payload: List::from_slice(alloc, &[7, 0, low, high])?,
    })?;
    match node.next() {
        Some(answer) => Ok(answer.payload.as_slice() == [low, high, 1, 0].as_slice()),
        None => Err(Fail::from("no answer")),
    }
}

#[test]
fn sixteen_breakpoints(rt: HostRuntime) -> Result<(), Fail> {
    let mut node = new_node(rt.alloc())?;
    for pc in 0..16 {
        assert!(rt; set(rt.alloc(), &mut node, pc)?, "{pc}");
    }
    assert!(rt; !set(rt.alloc(), &mut node, 16)?);
    assert!(rt; set(rt.alloc(), &mut node, 3)?);
    Ok(())
}
