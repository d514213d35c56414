//! A node's session on a link.
ghost use Rattle.std.specs.Prelude.{◌≡◌, ◌≤◌, ◌<◌, ◌^◌, ◌+◌, ◌++◌, ℕ, List as Items, [], IfErr, OnErr, OnOk, length};
ghost use Rattle.std.specs.List.{flat_map};
ghost use Rattle.aseba_edge.specs.Counts.{Counts};
ghost use Rattle.aseba_edge.specs.Sink.{Took, TookFirst};
ghost use Rattle.aseba_message.specs.Frames.{spelling};
ghost use Rattle.aseba_message.specs.Reader.{answer};
ghost use Rattle.aseba_message.specs.Cut.{ended};
ghost use Rattle.aseba_node.specs.Session.{DidAll, EndedBy, delivered_all, ended_in, quiet};
ghost use Rattle.aseba_node.specs.Turns.{Behind, HeardBad, IsUnspoken, Polls, TurnDone, TurnEnded, is_read_fault, is_write_fault};

use crate::node::Node;
use aseba_edge::{LinkOut, LinkPoll, Polled};
use aseba_message::{Fed, Frame, FrameReader, encode};
use aseba_words::{List, Mem};
use std::alloc::Global;

/// Why a session ended before its turns were done.
#[derive(Clone, Copy, Debug, PartialEq, Eq)]
pub enum SessionEnd {
    /// A length that no frame may have stands at this byte of the stream.
    BadFrame { place: u64 },
    /// The input failed.
    ReadFault,
    /// The output failed.
    WriteFault,
    /// Memory was too short.
    Mem,
}

impl From<Mem> for SessionEnd {
    ghost use Rattle.std.specs.Prelude.{◌≡◌};
    ghost use Rattle.aseba_node.specs.declared.link.SessionEnd.TheVariants as end;

    ghost from_gives = { λ _ e. e ≡ end.Mem };

    fn from(_mem: Mem) -> SessionEnd {
        SessionEnd::Mem
    }
}

/// How many bytes one poll takes at most.
const ROOM: usize = 4096;

/// How many ticks the machine does in a turn.
const TURN_TICKS: u32 = 100;

/// Lets a node take part in a network over a link, for so many turns or until the link has ended. A
/// turn polls the input once, delivers the frames that end in what came, does a hundred ticks, and
/// writes what the node says, each frame by one put.
#[tactic(auto, unfolding(crate::specs::Session::room))]
pub fn session<I: LinkPoll, O: LinkOut>(
    alloc: Global,
    node: &mut Node,
    input: &mut I,
    output: &mut O,
    turns: u64,
) -> Result<(), SessionEnd>
    requires few { turns ≤ 2 ^ 51 }
    requires none { node.old.waiting ≡ [] }
    ensures done { OnOk result (DidAll node.old turns
        record { input = I.contents input.old; taken = O.taken output.old }
        record { input = I.contents input.new; taken = O.taken output.new } node.new) }
    ensures end { IfErr result (EndedBy node.old turns
        record { input = I.contents input.old; taken = O.taken output.old }
        record { input = I.contents input.new; taken = O.taken output.new }) }
    ensures read_fault { Counts (is_read_fault result) (I.faults input.old) (I.faults input.new) }
    ensures write_fault { Counts (is_write_fault result) (O.faults output.old) (O.faults output.new) }
    ensures input_mark { I.mark input.new ≡ I.mark input.old }
    ensures output_mark { O.mark output.new ≡ O.mark output.old }
{
    let mut reader = FrameReader::new();
    let mut buffer = [0; ROOM];
    let mut place = 0;
    for _ in 0..turns {
        let Some(count) = poll(input, &mut buffer)? else {
            return Ok(());
        };
        turn(alloc, node, &mut reader, place, &buffer[..count], output)?;
        place += count as u64;
    }
    Ok(())
}

/// Takes the next answer of a link into the front of a buffer: how many bytes came, or none where
/// the link has ended.
#[tactic(auto, using(crate::proofs::Turning::came), unfolding(crate::specs::Session::room))]
fn poll<I: LinkPoll>(input: &mut I, buffer: &mut [u8; ROOM]) -> Result<Option<usize>, SessionEnd>
    ensures came { Polls (I.contents input.old) result buffer.new (I.contents input.new) }
    ensures count { Counts (is_read_fault result) (I.faults input.old) (I.faults input.new) }
    ensures mark { I.mark input.new ≡ I.mark input.old }
{
    match input.poll(buffer) {
        Polled::Piece(count) => Ok(Some(count)),
        Polled::NotYet => Ok(Some(0)),
        Polled::Ended => Ok(None),
        Polled::Failed => Err(SessionEnd::ReadFault),
    }
}

/// One turn on a piece of the stream, of which so many bytes came before.
#[tactic(auto, unfolding(crate::specs::Session::turn_ticks))]
fn turn<O: LinkOut>(
    alloc: Global,
    node: &mut Node,
    reader: &mut FrameReader,
    place: u64,
    piece: &[u8],
    output: &mut O,
) -> Result<(), SessionEnd>
    requires room { place + length piece.now < 2 ^ 64 }
    requires behind { (before : Items ℕ) × Behind before place reader.old }
    requires none { node.old.waiting ≡ [] }
    ensures done { OnOk result ((before : Items ℕ) → Behind before place reader.old
        → TurnDone node.old before piece.now place (O.taken output.old) reader.new node.new (O.taken output.new)) }
    ensures end { IfErr result (λ end. (before : Items ℕ) → Behind before place reader.old
        → TurnEnded node.old before piece.now (O.taken output.old) end (O.taken output.new)) }
    ensures count { Counts (is_write_fault result) (O.faults output.old) (O.faults output.new) }
    ensures mark { O.mark output.new ≡ O.mark output.old }
{
    hear(alloc, node, reader, place, piece)?;
    node.run(TURN_TICKS)?;
    speak(alloc, node, output)
}

/// Delivers the frames that end in a piece of the stream, of which so many bytes came before.
fn hear(
    alloc: Global,
    node: &mut Node,
    reader: &mut FrameReader,
    place: u64,
    piece: &[u8],
) -> Result<(), SessionEnd>
    requires room { place + length piece.now < 2 ^ 64 }
    requires behind { (before : Items ℕ) × Behind before place reader.old }
    ensures heard { OnOk result ((before : Items ℕ) → Behind before place reader.old
        → Behind (before ++ piece.now) (place + length piece.now) reader.new
        × (node.new ≡ delivered_all (ended_in before piece.now) node.old)) }
    ensures bad { IfErr result (λ end. (before : Items ℕ) → Behind before place reader.old
        → HeardBad (before ++ piece.now) end) }
{
    let mut at = 0;
    while at < piece.len() {
        let begin = place + at as u64 - reader.held() as u64;
        let taken = reader.feed_piece(&piece[at..]);
        at += taken.count;
        deliver_ended(alloc, node, reader, taken.fed)?;
        if let Fed::TooLong { .. } = taken.fed {
            return Err(SessionEnd::BadFrame { place: begin });
        }
    }
    Ok(())
}

/// Delivers the frame that a reader has just ended, if it has.
fn deliver_ended(alloc: Global, node: &mut Node, reader: &FrameReader, fed: Fed) -> Result<(), Mem>
    requires { fed ≡ answer reader.now }
    ensures { OnOk result (node.new ≡ delivered_all (ended fed reader.now) node.old) }
{
    match fed {
        Fed::Whole => {
            let frame = reader.frame(alloc)?;
            node.deliver(&frame)
        }
        Fed::More | Fed::TooLong { .. } => Ok(()),
    }
}

/// Writes what a node has said, each frame by one put.
fn speak<O: LinkOut>(alloc: Global, node: &mut Node, output: &mut O) -> Result<(), SessionEnd>
    ensures whole { OnOk result (Took (O.taken output.old) (flat_map spelling node.old.waiting) (O.taken output.new)) }
    ensures quiet { OnOk result (node.new ≡ quiet node.old) }
    ensures part { OnErr result (TookFirst (O.taken output.old) (flat_map spelling node.old.waiting) (O.taken output.new)) }
    ensures end { IfErr result IsUnspoken }
    ensures count { Counts (is_write_fault result) (O.faults output.old) (O.faults output.new) }
    ensures mark { O.mark output.new ≡ O.mark output.old }
{
    while let Some(frame) = node.next() {
        put_frame(alloc, &frame, output)?;
    }
    Ok(())
}

/// Writes a frame by one put.
#[tactic(auto, using(aseba_edge::proofs::Puts::put_steps))]
fn put_frame<O: LinkOut>(alloc: Global, frame: &Frame, output: &mut O) -> Result<(), SessionEnd>
    ensures whole { OnOk result (Took (O.taken output.old) (spelling frame.now) (O.taken output.new)) }
    ensures part { OnErr result (TookFirst (O.taken output.old) (spelling frame.now) (O.taken output.new)) }
    ensures end { IfErr result IsUnspoken }
    ensures count { Counts (is_write_fault result) (O.faults output.old) (O.faults output.new) }
    ensures mark { O.mark output.new ≡ O.mark output.old }
{
    let mut bytes = List::new(alloc);
    encode(alloc, frame, &mut bytes)?;
    match output.put(bytes.as_slice()) {
        Ok(()) => Ok(()),
        Err(_) => Err(SessionEnd::WriteFault),
    }
}
