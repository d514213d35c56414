//! Sessions on links in memory.
ghost use Rattle.std.specs.Prelude.{◌<◌, ◌≤◌, ◌^◌};

use crate::talk::{LOOPS, new_node, shown, spelled};
use aseba_edge::{LinkScript, MemoryOut, MemoryPolledLink, PollAnswer};
use aseba_node::{SessionEnd, session};
use aseba_words::{List, Mem};
use std::alloc::Global;
use std::process::Abort;
use std::test::Fail;

/// How a session ended, and what its link took.
#[derive(Drop)]
struct Ended {
    end: Result<(), SessionEnd>,
    output: MemoryOut,
}

/// A link's answer: the bytes of digits, or that nothing came yet for a dash.
fn answer(alloc: Global, digits: &str) -> Result<PollAnswer, Fail> {
    if digits == "-" {
        return Ok(PollAnswer::Later);
    }
    match hex::decode(alloc, digits.as_bytes()) {
        Ok(bytes) => Ok(PollAnswer::Bytes(List::from_vec(bytes))),
        Err(_) => Err(Fail::from("no hexadecimal digits")),
    }
}

fn answers(alloc: Global, texts: &[&str]) -> Result<List<PollAnswer>, Fail> {
    let mut answers = List::new(alloc);
    for text in texts {
        answers.push(answer(alloc, text)?).map_err(|_| Mem)?;
    }
    Ok(answers)
}

/// The session of a new node for so many turns on a link of these answers, of which a call may fail,
/// and which has room for so many bytes.
fn held(
    alloc: Global,
    answers: &[PollAnswer],
    turns: u64,
    failing: u64,
    room: usize,
) -> Result<Ended, Fail>
    requires { turns ≤ 2 ^ 51 }
{
    let mut script = LinkScript::new(alloc, 1, room);
    script.failing_reads = List::from_slice(alloc, &[failing])?;
    let MemoryPolledLink {
        mut input,
        mut output,
    } = MemoryPolledLink::new(alloc, script, answers)?;
    let mut node = new_node(alloc)?;
    let end = session(alloc, &mut node, &mut input, &mut output, turns);
    Ok(Ended { end, output })
}

/// Whether the session on these answers ends so, and its link took these frames.
fn holds(
    rt: &impl Abort,
    alloc: Global,
    texts: &[&str],
    turns: u64,
    end: Result<(), SessionEnd>,
    said: &[&str],
) -> Result<(), Fail>
    requires { turns ≤ 2 ^ 51 }
{
    let answers = answers(alloc, texts)?;
    let ended = held(alloc, answers.as_slice(), turns, 0, 1_000_000)?;
    assert_eq!(rt; ended.end, end);
    let said = spelled(alloc, said)?;
    assert_eq!(rt;
        shown(alloc, ended.output.bytes())?,
        shown(alloc, said.as_slice())?
    );
    Ok(())
}

/// LIST_NODES, as the link has it.
const LIST: &str = "0200000011a00500";

#[test]
fn a_node_is_there(rt: HostRuntime) -> Result<(), Fail> {
    let said = ["7 900c 0500"];
    holds(&rt, rt.alloc(), &[LIST, "-"], 5, Ok(()), &said)?;
    holds(&rt, rt.alloc(), &[LIST, "-"], 2, Ok(()), &said)?;
    holds(&rt, rt.alloc(), &[LIST, LIST], 1, Ok(()), &said)?;
    holds(&rt, rt.alloc(), &[LIST], 0, Ok(()), &[])?;
    holds(&rt, rt.alloc(), &["-", LIST, "-"], 1, Ok(()), &[])?;
    holds(&rt, rt.alloc(), &[], 3, Ok(()), &[])
}

#[test]
fn a_frame_is_delivered_in_the_turn_of_its_last_byte(rt: HostRuntime) -> Result<(), Fail> {
    let said = ["7 900c 0500"];
    let cut = ["02", "0000", "-", "0011a0", "05", "00"];
    holds(&rt, rt.alloc(), &cut, 6, Ok(()), &said)?;
    holds(&rt, rt.alloc(), &cut, 5, Ok(()), &[])?;
    // The link ends in the middle of a frame.
    let half = [LIST, "0200000011"];
    holds(&rt, rt.alloc(), &half, 9, Ok(()), &said)
}

#[test]
fn a_turn_has_a_hundred_ticks(rt: HostRuntime) -> Result<(), Fail> {
    // The code sends event 3 and jumps back, without an end.
    let load = "0 a001 0700 0000 0300 ffff 0300 03b0 0000 0000 fd9f";
    let alloc = rt.alloc();
    let asked = spelled(alloc, &[load, "0 a002 0700", "0 a003 0700"])?;
    let mut answers = List::new(alloc);
    let piece = PollAnswer::Bytes(List::from_slice(alloc, asked.as_slice())?);
    answers.push(piece).map_err(|_| Mem)?;
    answers.push(PollAnswer::Later).map_err(|_| Mem)?;
    for (turns, events) in [(1, 50), (2, 100)] {
        let ended = held(alloc, answers.as_slice(), turns, 0, 1_000_000)?;
        assert_eq!(rt; ended.end, Ok(()));
        // Two frames of ten bytes, and then the events of six.
        assert_eq!(rt; ended.output.bytes().len(), 20 + 6 * events);
    }
    Ok(())
}

#[test]
fn a_length_that_no_frame_has(rt: HostRuntime) -> Result<(), Fail> {
    let said = ["7 900c 0500"];
    let end = Err(SessionEnd::BadFrame { place: 8 });
    holds(&rt, rt.alloc(), &[LIST, "0104"], 9, end, &said)?;
    holds(&rt, rt.alloc(), &[LIST, "01", "-", "04"], 9, end, &said)?;
    // Nothing of the turn is written.
    let both = "0200000011a005000104";
    holds(&rt, rt.alloc(), &[both], 9, end, &[])?;
    // The greatest length is none.
    holds(&rt, rt.alloc(), &[LIST, "0004"], 9, Ok(()), &said)
}

#[test]
fn faults_of_a_link(rt: HostRuntime) -> Result<(), Fail> {
    let alloc = rt.alloc();
    let answers = answers(alloc, &[LIST, "-", LIST])?;
    let ended = held(alloc, answers.as_slice(), 9, 2, 100)?;
    assert_eq!(rt; ended.end, Err(SessionEnd::ReadFault));
    assert_eq!(rt;
        shown(alloc, ended.output.bytes())?.as_str(),
        "020007000c900500"
    );
    let ended = held(alloc, answers.as_slice(), 9, 0, 12)?;
    assert_eq!(rt; ended.end, Err(SessionEnd::WriteFault));
    assert_eq!(rt;
        shown(alloc, ended.output.bytes())?.as_str(),
        "020007000c90050002000700"
    );
    Ok(())
}

/// A generator of numbers, always the same ones.
#[derive(Drop)]
struct Dice {
    state: u64,
}

impl Dice {
    fn below(&mut self, bound: u64) -> u64
        requires { 0 < bound }
        ensures { result < bound }
    {
        self.state = self
            .state
            .wrapping_mul(6_364_136_223_846_793_005)
            .wrapping_add(1_442_695_040_888_963_407);
        (self.state >> 33) % bound
    }
}

/// The bytes in pieces of random lengths, before some of which nothing has come yet.
fn cut(alloc: Global, bytes: &[u8], dice: &mut Dice) -> Result<List<PollAnswer>, Fail> {
    let mut answers = List::new(alloc);
    let mut piece = List::new(alloc);
    for byte in bytes {
        piece.push(*byte).map_err(|_| Mem)?;
        if dice.below(12) == 0 {
            answers.push(PollAnswer::Bytes(piece)).map_err(|_| Mem)?;
            piece = List::new(alloc);
        }
        if dice.below(20) == 0 {
            answers.push(PollAnswer::Later).map_err(|_| Mem)?;
        }
    }
    answers.push(PollAnswer::Bytes(piece)).map_err(|_| Mem)?;
    Ok(answers)
}

#[test]
fn cuts_change_nothing(rt: HostRuntime) -> Result<(), Fail> {
    let alloc = rt.alloc();
    let asked = spelled(
        alloc,
        &[
            "0 a011 0500",
            LOOPS,
            "0 a00b 0700 0000 0001",
            "0 a002 0800",
            "0 a002 0700",
            "0 a003 0700",
            "9 0000 00x1024",
            "9 0000 0500",
            "0 a00b 0700 0000 0500",
            "0 a006 0700",
        ],
    )?;
    let said = spelled(
        alloc,
        &[
            "7 900c 0500",
            "7 9005 0000 0700 0000x254",
            "7 9005 ff00 0000",
            "7 900a 0500 0300",
            "7 900a 0500 0100",
            "7 9008 0500",
            "7 9008 0700",
            "7 9005 0000 0700 0900 0500 0000 0000",
            "7 900a 0700 0000",
        ],
    )?;
    let mut dice = Dice { state: 5 };
    for _ in 0..20 {
        let answers = cut(alloc, asked.as_slice(), &mut dice)?;
        let ended = held(alloc, answers.as_slice(), 10_000, 0, 100_000)?;
        assert_eq!(rt; ended.end, Ok(()));
        assert_eq!(rt;
            shown(alloc, ended.output.bytes())?,
            shown(alloc, said.as_slice())?
        );
    }
    Ok(())
}
