//! Nodes to talk with by lines. A frame's line is its source, its type in four hexadecimal digits,
//! and the bytes of its payload in two each, in as many fields as one likes. A field `0000x253`
//! stands for 253 times those bytes. The line `ticks N` stands for N ticks.
ghost use Rattle.std.specs.Prelude.{◌≡◌, [], IfOk};

use aseba_describe::read_project;
use aseba_message::{Frame, encode};
use aseba_node::Node;
use aseba_words::{List, Mem};
use std::alloc::Global;
use std::process::Abort;
use std::test::Fail;

/// A node with 32 words of code and 600 cells, of the id 7.
const PROJECT: &str = "node n7
code 32
vars 600
stack 4
id 7
variable _id 1
variable event.source 1
variable event.args 2
local timer it ticks
native math.copy -1 dest -1 src ; copies
event ping 0
";

/// Words in which the init code is a loop without an end, at word 5, and so is the handler of event
/// 0, at word 7.
pub const LOOPS: &str = "0 a001 0700 0000 0500 ffff 0500 0000 0700 0090 0000 0090";

/// What was said before a line, the line, and what the node says to it.
#[derive(Clone, Copy, Drop)]
pub struct Talk {
    pub what: &'static str,
    pub before: &'static [&'static str],
    pub line: &'static str,
    pub said: &'static [&'static str],
}

/// The bytes of a field.
fn field_bytes(alloc: Global, field: &str, bytes: &mut Vec<u8>) -> Result<(), Fail> {
    let (digits, times) = match field.split_once('x') {
        Some((digits, times)) => (digits, times.parse::<u16>().unwrap_or(0)),
        None => (field, 1),
    };
    let Ok(piece) = hex::decode(alloc, digits.as_bytes()) else {
        return Err(Fail::from("no hexadecimal digits"));
    };
    for _ in 0..times {
        for byte in piece.as_slice() {
            bytes.push(*byte)?;
        }
    }
    Ok(())
}

/// The frame of a line.
pub fn frame(alloc: Global, line: &str) -> Result<Frame, Fail> {
    let mut source = 0;
    let mut bytes = Vec::new(alloc);
    for (place, field) in line.split(' ').enumerate() {
        if place == 0 {
            source = field.parse::<u16>().unwrap_or(0);
        } else {
            field_bytes(alloc, field, &mut bytes)?;
        }
    }
    let [high, low, payload @ ..] = bytes.as_slice() else {
        return Err(Fail::from("no type"));
    };
    if payload.len() > 1024 {
        return Err(Fail::from("no frame is so long"));
    }
    Ok(Frame {
        source,
        kind: u16::from_be_bytes([*high, *low]),
        payload: List::from_slice(alloc, payload)?,
    })
}

/// The bytes of the frames of lines.
pub fn spelled(alloc: Global, lines: &[&str]) -> Result<List<u8>, Fail> {
    let mut bytes = List::new(alloc);
    for line in lines {
        encode(alloc, &frame(alloc, line)?, &mut bytes)?;
    }
    Ok(bytes)
}

/// The bytes of the frames that a node has said, which it forgets.
fn said(alloc: Global, node: &mut Node) -> Result<List<u8>, Mem> {
    let mut bytes = List::new(alloc);
    for _ in 0..1000 {
        match node.next() {
            Some(frame) => encode(alloc, &frame, &mut bytes)?,
            None => break,
        }
    }
    Ok(bytes)
}

/// Does what a line says.
fn tell(alloc: Global, node: &mut Node, line: &str) -> Result<(), Fail> {
    match line.strip_prefix("ticks ") {
        Some(ticks) => node.run(ticks.parse::<u32>().unwrap_or(0))?,
        None => node.deliver(&frame(alloc, line)?)?,
    }
    Ok(())
}

/// The node of the project above, which has said nothing.
pub fn new_node(alloc: Global) -> Result<Node, Fail>
    ensures { IfOk result (λ node. node.waiting ≡ []) }
{
    let Ok(project) = read_project(alloc, PROJECT.as_bytes()) else {
        return Err(Fail::from("no project"));
    };
    Ok(Node::new(alloc, &project)?)
}

/// Bytes as text, for a test to tell.
pub fn shown(alloc: Global, bytes: &[u8]) -> Result<String, Mem> {
    Ok(hex::encode(alloc, bytes)?)
}

/// Whether a new node says to each line what it has to.
pub fn all_said(rt: &impl Abort, alloc: Global, talks: &[Talk]) -> Result<(), Fail> {
    for talk in talks {
        let mut node = new_node(alloc)?;
        for line in talk.before {
            tell(alloc, &mut node, line)?;
        }
        said(alloc, &mut node)?;
        tell(alloc, &mut node, talk.line)?;
        let heard = said(alloc, &mut node)?;
        let wanted = spelled(alloc, talk.said)?;
        assert_eq!(rt;
            shown(alloc, heard.as_slice())?,
            shown(alloc, wanted.as_slice())?,
            "{}",
            talk.what
        );
    }
    Ok(())
}
