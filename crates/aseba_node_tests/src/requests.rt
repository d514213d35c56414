//! What a node tells when it is asked, and how it takes code and cells.
use crate::talk::{LOOPS, Talk, all_said};
use std::test::Fail;

/// The name, the sizes, and the counts of the node; its variables, its local event and its native.
const DESCRIPTION: &[&str] = &[
    "7 9000 02 6e37 0500 2000 0400 5802 0300 0100 0100",
    "7 9001 0100 03 5f6964",
    "7 9001 0100 0c 6576656e742e736f75726365",
    "7 9001 0200 0a 6576656e742e61726773",
    "7 9002 05 74696d6572 08 6974207469636b73",
    "7 9003 09 6d6174682e636f7079 06 636f70696573 0200 ffff 04 64657374 ffff 03 737263",
];

/// The text `range`, behind the counter 0.
const OUT_OF_RANGE: &[&str] = &["7 9009 0000 05 72616e6765"];

#[test]
fn a_node_is_there_and_describes_itself(rt: HostRuntime) -> Result<(), Fail> {
    let talks = [
        Talk {
            what: "nodes are listed",
            before: &[],
            line: "0 a011 0500",
            said: &["7 900c 0500"],
        },
        Talk {
            what: "versions are not compared",
            before: &[],
            line: "0 a011 0900",
            said: &["7 900c 0500"],
        },
        Talk {
            what: "all nodes describe themselves",
            before: &[],
            line: "0 a000 0500",
            said: DESCRIPTION,
        },
        Talk {
            what: "one node describes itself",
            before: &[],
            line: "0 a010 0700 0500",
            said: DESCRIPTION,
        },
        Talk {
            what: "another node is to describe itself",
            before: &[],
            line: "0 a010 0800 0500",
            said: &[],
        },
    ];
    all_said(&rt, rt.alloc(), &talks)
}

#[test]
fn frames_that_are_nothing_to_a_node(rt: HostRuntime) -> Result<(), Fail> {
    for line in [
        // of other nodes
        "9 9000 01 61 0500 0800 0400 0500 0000 0000 0000",
        "9 9005 0000 0100",
        "9 9008 0300",
        "9 900a 0500 0300",
        "9 900c 0500",
        // for another node
        "0 a001 0800 0000 0100",
        "0 a002 0800",
        "0 a003 0800",
        "0 a007 0800",
        "0 a008 0800 0100",
        "0 a00b 0800 0000 0100",
        "0 a00c 0800 0000 0100",
        // without a payload of its type
        "0 a002",
        "0 a002 07",
        "0 a002 0700 00",
        "0 a011",
        "0 a011 0500 05",
        "0 a001 0700 0000 01",
        "0 a00c 0700 0000 01",
        "0 0000 05",
        "0 a00d 0700",
        "0 a012 0500",
        "0 8000",
        "0 900d",
    ] {
        let talks = [Talk {
            what: line,
            before: &[LOOPS, "0 a002 0700", "0 a003 0700"],
            line,
            said: &[],
        }];
        all_said(&rt, rt.alloc(), &talks)?;
    }
    Ok(())
}

#[test]
fn code_is_taken_up_to_its_last_word(rt: HostRuntime) -> Result<(), Fail> {
    let talks = [
        Talk {
            what: "the last two words",
            before: &[],
            line: "0 a001 0700 1e00 0100 0200",
            said: &[],
        },
        Talk {
            what: "a word behind the last",
            before: &[],
            line: "0 a001 0700 1f00 0100 0200",
            said: OUT_OF_RANGE,
        },
        Talk {
            what: "no word at the end",
            before: &[],
            line: "0 a001 0700 2000",
            said: &[],
        },
        Talk {
            what: "no word past the end",
            before: &[],
            line: "0 a001 0700 2100",
            said: OUT_OF_RANGE,
        },
        Talk {
            what: "a refusal tells where the machine stands",
            before: &[LOOPS, "0 a002 0700", "0 a003 0700"],
            line: "0 a001 0700 1f00 0100 0200",
            said: &["7 9009 0500 05 72616e6765"],
        },
    ];
    all_said(&rt, rt.alloc(), &talks)
}

#[test]
fn cells_are_told_in_runs_of_255(rt: HostRuntime) -> Result<(), Fail> {
    let talks = [
        Talk {
            what: "none",
            before: &[],
            line: "0 a00b 0700 0000 0000",
            said: &[],
        },
        Talk {
            what: "1",
            before: &[],
            line: "0 a00b 0700 0000 0100",
            said: &["7 9005 0000 0700"],
        },
        Talk {
            what: "255",
            before: &[],
            line: "0 a00b 0700 0000 ff00",
            said: &["7 9005 0000 0700 0000x254"],
        },
        Talk {
            what: "256",
            before: &[],
            line: "0 a00b 0700 0000 0001",
            said: &["7 9005 0000 0700 0000x254", "7 9005 ff00 0000"],
        },
        Talk {
            what: "510",
            before: &[],
            line: "0 a00b 0700 0000 fe01",
            said: &["7 9005 0000 0700 0000x254", "7 9005 ff00 0000x255"],
        },
        Talk {
            what: "511, of which the last is 9",
            before: &["0 a00c 0700 fe01 0900"],
            line: "0 a00b 0700 0000 ff01",
            said: &[
                "7 9005 0000 0700 0000x254",
                "7 9005 ff00 0000x255",
                "7 9005 fe01 0900",
            ],
        },
        Talk {
            what: "256 from another place on",
            before: &["0 a00c 0700 6301 0300 0400"],
            line: "0 a00b 0700 6400 0101",
            said: &["7 9005 6400 0000x255", "7 9005 6301 0300 0400"],
        },
    ];
    all_said(&rt, rt.alloc(), &talks)
}

#[test]
fn cells_past_the_last(rt: HostRuntime) -> Result<(), Fail> {
    let talks = [
        Talk {
            what: "the last one is told",
            before: &[],
            line: "0 a00b 0700 5702 0100",
            said: &["7 9005 5702 0000"],
        },
        Talk {
            what: "one more than there are",
            before: &[],
            line: "0 a00b 0700 5702 0200",
            said: OUT_OF_RANGE,
        },
        Talk {
            what: "none at the end",
            before: &[],
            line: "0 a00b 0700 5802 0000",
            said: &[],
        },
        Talk {
            what: "none past the end",
            before: &[],
            line: "0 a00b 0700 5902 0000",
            said: OUT_OF_RANGE,
        },
        Talk {
            what: "the greatest numbers",
            before: &[],
            line: "0 a00b 0700 ffff ffff",
            said: OUT_OF_RANGE,
        },
        Talk {
            what: "a cell behind the last is set",
            before: &[],
            line: "0 a00c 0700 5702 0100 0200",
            said: OUT_OF_RANGE,
        },
        Talk {
            what: "none is set at the end",
            before: &[],
            line: "0 a00c 0700 5802",
            said: &[],
        },
        Talk {
            what: "none is set past the end",
            before: &[],
            line: "0 a00c 0700 5902",
            said: OUT_OF_RANGE,
        },
    ];
    all_said(&rt, rt.alloc(), &talks)
}

#[test]
fn cells_are_set_at_once_or_held(rt: HostRuntime) -> Result<(), Fail> {
    let talks = [
        Talk {
            what: "no handler runs",
            before: &["0 a00c 0700 0500 ffff 0200"],
            line: "0 a00b 0700 0400 0400",
            said: &["7 9005 0400 0000 ffff 0200 0000"],
        },
        Talk {
            what: "a handler runs",
            before: &[
                LOOPS,
                "0 a002 0700",
                "0 a003 0700",
                "0 a00c 0700 0500 ffff 0200",
            ],
            line: "0 a00b 0700 0500 0200",
            said: &["7 9005 0500 0000 0000"],
        },
        Talk {
            what: "a handler stands at its first word, paused",
            before: &[LOOPS, "0 a002 0700", "0 a00c 0700 0500 ffff 0200"],
            line: "0 a00b 0700 0500 0200",
            said: &["7 9005 0500 0000 0000"],
        },
        Talk {
            what: "the handler was stopped",
            before: &[
                LOOPS,
                "0 a002 0700",
                "0 a003 0700",
                "0 a00c 0700 0500 ffff 0200",
                "0 a006 0700",
            ],
            line: "0 a00b 0700 0500 0200",
            said: &["7 9005 0500 ffff 0200"],
        },
        Talk {
            what: "a refused run of cells sets none of them",
            before: &["0 a00c 0700 5602 0100 0200 0300"],
            line: "0 a00b 0700 5602 0200",
            said: &["7 9005 5602 0000 0000"],
        },
    ];
    all_said(&rt, rt.alloc(), &talks)
}
