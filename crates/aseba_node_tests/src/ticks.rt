//! What a node says in its ticks.
use crate::talk::{Talk, all_said};
use std::test::Fail;

#[test]
fn what_ticks_send(rt: HostRuntime) -> Result<(), Fail> {
    // Event 2 with the first three cells; then event 3 with none, and the end.
    const SENDS: &str = "0 a001 0700 0000 0300 ffff 0300 02b0 0000 0300 03b0 0000 0000 0000";
    let talks = [
        Talk {
            what: "events with their cells",
            before: &[SENDS, "0 a002 0700", "0 a003 0700"],
            line: "ticks 10",
            said: &["7 0002 0700 0000 0000", "7 0003"],
        },
        Talk {
            what: "one tick",
            before: &[SENDS, "0 a002 0700", "0 a003 0700"],
            line: "ticks 1",
            said: &["7 0002 0700 0000 0000"],
        },
        Talk {
            what: "no tick",
            before: &[SENDS, "0 a002 0700", "0 a003 0700"],
            line: "ticks 0",
            said: &[],
        },
        Talk {
            what: "a paused node does none",
            before: &[SENDS, "0 a002 0700"],
            line: "ticks 10",
            said: &[],
        },
        Talk {
            what: "an event, and then the stop at a breakpoint behind it",
            before: &[SENDS, "0 a008 0700 0600", "0 a002 0700", "0 a003 0700"],
            line: "ticks 10",
            said: &["7 0002 0700 0000 0000", "7 900a 0600 0300"],
        },
        Talk {
            what: "on from the breakpoint",
            before: &[
                SENDS,
                "0 a008 0700 0600",
                "0 a002 0700",
                "0 a003 0700",
                "ticks 10",
                "0 a003 0700",
            ],
            line: "ticks 10",
            said: &["7 0003"],
        },
    ];
    all_said(&rt, rt.alloc(), &talks)
}

#[test]
fn stops_and_errors(rt: HostRuntime) -> Result<(), Fail> {
    // A division of 1 by 0.
    const DIVIDES: &str = "0 a001 0700 0000 0300 ffff 0300 0110 0010 0580 0000";
    // Cell 2 of two.
    const LOADS: &str = "0 a001 0700 0000 0300 ffff 0300 0210 0050 0200 0000";
    // A value too much for the empty stack to give.
    const TAKES: &str = "0 a001 0700 0000 0300 ffff 0300 0040";
    // The cell behind the last.
    const FAR: &str = "0 a001 0700 0000 0300 ffff 0300 5832";
    // A native that isn't there.
    const CALLS: &str = "0 a001 0700 0000 0300 ffff 0300 14c0";
    // A jump past the code.
    const JUMPS: &str = "0 a001 0700 0000 0300 ffff 0300 7f90";
    let talks = [
        Talk {
            what: "a division",
            before: &[DIVIDES, "0 a002 0700", "0 a003 0700"],
            line: "ticks 10",
            said: &["7 9007 0500"],
        },
        Talk {
            what: "bounds",
            before: &[LOADS, "0 a002 0700", "0 a003 0700"],
            line: "ticks 10",
            said: &["7 9006 0400 0200 0200"],
        },
        Talk {
            what: "a stop pauses",
            before: &[LOADS, "0 a002 0700", "0 a003 0700", "ticks 10"],
            line: "0 a007 0700",
            said: &["7 900a 0400 0200"],
        },
        Talk {
            what: "an error of the stack",
            before: &[TAKES, "0 a002 0700", "0 a003 0700"],
            line: "ticks 10",
            said: &["7 9009 0300 05 737461636b"],
        },
        Talk {
            what: "an error of an address",
            before: &[FAR, "0 a002 0700", "0 a003 0700"],
            line: "ticks 10",
            said: &["7 9009 0300 07 61646472657373"],
        },
        Talk {
            what: "an error of a native",
            before: &[CALLS, "0 a002 0700", "0 a003 0700"],
            line: "ticks 10",
            said: &["7 9009 0300 06 6e6174697665"],
        },
        Talk {
            what: "an error of the code",
            before: &[JUMPS, "0 a002 0700", "0 a003 0700"],
            line: "ticks 10",
            said: &["7 9009 0300 04 636f6465"],
        },
    ];
    all_said(&rt, rt.alloc(), &talks)
}
