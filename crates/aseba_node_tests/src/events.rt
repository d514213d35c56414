//! What a node does at an event, in each state.
use crate::talk::{LOOPS, Talk, all_said};
use std::test::Fail;

#[test]
fn a_handler_begins_or_not(rt: HostRuntime) -> Result<(), Fail> {
    let talks = [
        Talk {
            what: "no handler runs",
            before: &[LOOPS, "9 0000"],
            line: "0 a007 0700",
            said: &["7 900a 0700 0100"],
        },
        Talk {
            what: "nothing is said of a handler that begins",
            before: &[LOOPS],
            line: "9 0000",
            said: &[],
        },
        Talk {
            what: "an event without a handler",
            before: &[LOOPS, "9 0001"],
            line: "0 a007 0700",
            said: &["7 900a 0000 0000"],
        },
        Talk {
            what: "an event without a handler kills none",
            before: &[LOOPS, "0 a002 0700", "0 a003 0700"],
            line: "9 0001",
            said: &[],
        },
        Talk {
            what: "a node without code",
            before: &["9 0000"],
            line: "0 a007 0700",
            said: &["7 900a 0000 0000"],
        },
        Talk {
            what: "a handler is killed",
            before: &[LOOPS, "0 a002 0700", "0 a003 0700", "ticks 10"],
            line: "9 0000",
            said: &["7 9008 0500"],
        },
        Talk {
            what: "the other runs then",
            before: &[LOOPS, "0 a002 0700", "0 a003 0700", "9 0000"],
            line: "0 a007 0700",
            said: &["7 900a 0700 0100"],
        },
        Talk {
            what: "an event of the node's own id is one like any other",
            before: &[LOOPS, "0 a002 0700", "0 a003 0700"],
            line: "7 0000",
            said: &["7 9008 0500"],
        },
    ];
    all_said(&rt, rt.alloc(), &talks)
}

#[test]
fn events_at_a_paused_node(rt: HostRuntime) -> Result<(), Fail> {
    let talks = [
        Talk {
            what: "its handler stands still: the event is dropped",
            before: &[LOOPS, "0 a002 0700"],
            line: "9 0000",
            said: &[],
        },
        Talk {
            what: "and nothing changes",
            before: &[LOOPS, "0 a002 0700", "9 0000 0100"],
            line: "0 a007 0700",
            said: &["7 900a 0500 0300"],
        },
        Talk {
            what: "none runs: one begins and stands still",
            before: &[LOOPS, "0 a004 0700", "9 0000", "ticks 3"],
            line: "0 a007 0700",
            said: &["7 900a 0700 0300"],
        },
        Talk {
            what: "which isn't said, at a breakpoint either",
            before: &[LOOPS, "0 a004 0700", "0 a008 0700 0700"],
            line: "9 0000",
            said: &[],
        },
    ];
    all_said(&rt, rt.alloc(), &talks)
}

#[test]
fn a_breakpoint_at_the_first_word_of_a_handler(rt: HostRuntime) -> Result<(), Fail> {
    let talks = [
        Talk {
            what: "no handler ran",
            before: &[LOOPS, "0 a008 0700 0700"],
            line: "9 0000",
            said: &["7 900a 0700 0300"],
        },
        Talk {
            what: "the kill is said first",
            before: &[LOOPS, "0 a008 0700 0700", "0 a002 0700", "0 a003 0700"],
            line: "9 0000",
            said: &["7 9008 0500", "7 900a 0700 0300"],
        },
        Talk {
            what: "a reset onto one isn't looked at",
            before: &[LOOPS, "0 a008 0700 0500"],
            line: "0 a002 0700",
            said: &["7 900a 0500 0300"],
        },
    ];
    all_said(&rt, rt.alloc(), &talks)
}

#[test]
fn source_and_arguments_are_written(rt: HostRuntime) -> Result<(), Fail> {
    let talks = [
        Talk {
            what: "as many arguments as there are cells",
            before: &[LOOPS, "9 0000 0500 ffff 0600"],
            line: "0 a00b 0700 0000 0500",
            said: &["7 9005 0000 0700 0900 0500 ffff 0000"],
        },
        Talk {
            what: "further cells stay",
            before: &[LOOPS, "9 0000 0500 ffff", "8 0000 0100"],
            line: "0 a00b 0700 0000 0500",
            said: &["7 9005 0000 0700 0800 0100 ffff 0000"],
        },
        Talk {
            what: "an event without a handler writes nothing",
            before: &[LOOPS, "9 0001 0500"],
            line: "0 a00b 0700 0000 0300",
            said: &["7 9005 0000 0700 0000 0000"],
        },
    ];
    all_said(&rt, rt.alloc(), &talks)
}

#[test]
fn what_was_held_is_set_at_a_kill(rt: HostRuntime) -> Result<(), Fail> {
    let talks = [Talk {
        what: "held cells",
        before: &[
            LOOPS,
            "0 a002 0700",
            "0 a003 0700",
            "0 a00c 0700 0500 0100",
            "9 0000",
        ],
        line: "0 a00b 0700 0500 0100",
        said: &["7 9005 0500 0100"],
    }];
    all_said(&rt, rt.alloc(), &talks)
}
