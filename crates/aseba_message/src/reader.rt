ghost use Rattle.std.specs.Prelude.{◌≡◌, ◌+◌, ◌<◌, ◌≤◌, ℕ, List as Items, [], ◌∷◌, ◌++◌, ◌-◌, min, take, length, false, IfOk, IsTrue};
ghost use Rattle.aseba_message.specs.Frames.{is_bad, is_frame, message_of};
ghost use Rattle.aseba_message.specs.Reader.{BegunBehind, Held, answer, awaited, begun_len, fed, is_more, taken, wanted};
ghost use Rattle.aseba_message.specs.Cut.{IsMessage, StandsAt, frames_of, rest_of, ended, is_too_long};

use crate::frame::Frame;
use aseba_words::{List, Mem};
use byteorder::{ByteOrder, LittleEndian};
use std::alloc::Global;
use std::marker::Model;

/// What a byte did.
#[derive(Clone, Copy, Debug, PartialEq, Eq)]
pub enum Fed {
    /// The frame goes on.
    More,
    /// The byte is a frame's last.
    Whole,
    /// The frame's length is above 1024, so nothing that comes can be read any more.
    TooLong { len: u16 },
}

impl Fed {
    /// Whether the frame goes on.
    pub fn is_more(self) -> bool
        ensures { result ≡ is_more self }
    {
        match self {
            Fed::More => true,
            Fed::Whole | Fed::TooLong { .. } => false,
        }
    }
}

/// What a piece of a stream did.
#[derive(Clone, Copy, Debug, PartialEq, Eq)]
pub struct Taken {
    /// How many of its bytes were taken.
    pub count: usize,
    /// What the last of them did.
    pub fed: Fed,
}

/// The bytes before a payload.
const HEADER: usize = 6;

/// The longest frame: a header and a payload of 1024 bytes.
const LONGEST: usize = 1030;

/// Reads a stream of frames in any pieces. It holds the bytes of one frame, and takes no memory.
#[derive(Drop)]
pub struct FrameReader {
    buffer: [u8; LONGEST],
    len: usize,
}

impl Model for FrameReader {
    ghost use Rattle.std.specs.Prelude.{List, ℕ, ◌≤◌, take};
    ghost use Rattle.aseba_message.specs.Reader.{Held};

    ghost Value = { List ℕ };

    ghost view = { λ r. take r.len r.buffer };

    ghost invariant = { λ r. (r.len ≤ 1030) × Held (take r.len r.buffer) };
}

impl FrameReader {
    /// A reader at the beginning of a stream.
    pub fn new() -> FrameReader
        ensures bytes { result ≡ [] }
        ensures held { begun_len result ≡ 0 }
        ensures stream { StandsAt [] result }
    {
        FrameReader {
            buffer: [0; LONGEST],
            len: 0,
        }
    }

    /// Takes the stream's next byte.
    pub fn feed(&mut self, byte: u8) -> Fed
        ensures bytes { self.new ≡ fed self.old byte }
        ensures answer { result ≡ answer self.new }
        ensures held { BegunBehind (begun_len self.old) 1 result (begun_len self.new) }
        ensures stream { (bytes : Items ℕ) → StandsAt bytes self.old
            → StandsAt (bytes ++ byte ∷ []) self.new × (frames_of (bytes ++ byte ∷ []) ≡ frames_of bytes ++ ended result self.new) }
        ensures bad { (bytes : Items ℕ) → StandsAt bytes self.old → is_bad (rest_of (bytes ++ byte ∷ [])) ≡ is_too_long result }
    {
        self.take_byte(byte)
    }

    fn take_byte(&mut self, byte: u8) -> Fed
        ensures held { Held self.old }
        ensures bytes { self.new ≡ fed self.old byte }
        ensures answer { result ≡ answer self.new }
    {
        match answer_of(&self.buffer[..self.len]) {
            Fed::TooLong { len } => return Fed::TooLong { len },
            Fed::Whole => self.len = 0,
            Fed::More => {}
        }
        self.buffer[self.len] = byte;
        self.len += 1;
        answer_of(&self.buffer[..self.len])
    }

    /// Takes the bytes of a piece up to the first at which a frame ends or that makes a length too
    /// long, or all of them. It is the same as to feed them one by one, and copies them at once.
    pub fn feed_piece(&mut self, piece: &[u8]) -> Taken
        requires { 0 < length piece.now }
        ensures some { 0 < result.count }
        ensures within { result.count ≤ length piece.now }
        ensures taken { (result.count, result.fed, self.new) ≡ taken self.old piece.now }
        // A piece of no more than the bytes that are awaited is taken whole.
        ensures all { length piece.now ≤ awaited self.old → result.count ≡ length piece.now }
        ensures answer { result.fed ≡ answer self.new }
        ensures held { BegunBehind (begun_len self.old) result.count result.fed (begun_len self.new) }
        ensures stream { (bytes : Items ℕ) → StandsAt bytes self.old
            → StandsAt (bytes ++ take result.count piece.now) self.new
            × (frames_of (bytes ++ take result.count piece.now) ≡ frames_of bytes ++ ended result.fed self.new) }
        ensures bad { (bytes : Items ℕ) → StandsAt bytes self.old
            → is_bad (rest_of (bytes ++ take result.count piece.now)) ≡ is_too_long result.fed }
    {
        self.take_piece(piece[0], &piece[1..])
    }

    /// The first byte makes way for a frame. Behind it at most the rest of a length word and the
    /// rest of a frame are to be filled.
    fn take_piece(&mut self, first: u8, rest: &[u8]) -> Taken
        ensures held { Held self.old }
        ensures some { 0 < result.count }
        ensures within { result.count ≤ 1 + length rest.now }
        ensures taken { (result.count, result.fed, self.new) ≡ taken self.old (first ∷ rest.now) }
        ensures answer { result.fed ≡ answer self.new }
    {
        let fed = self.take_byte(first);
        if !fed.is_more() {
            return Taken { count: 1, fed };
        }
        let begun = self.fill(rest);
        if !begun.fed.is_more() {
            return Taken {
                count: 1 + begun.count,
                fed: begun.fed,
            };
        }
        let ended = self.fill(&rest[begun.count..]);
        Taken {
            count: 1 + begun.count + ended.count,
            fed: ended.fed,
        }
    }

    /// Takes bytes up to the one that may say more than that the frame goes on.
    fn fill(&mut self, piece: &[u8]) -> Taken
        requires { IsTrue (is_more (answer self.old)) }
        ensures room { length self.old ≤ wanted self.old }
        ensures count { result.count ≡ min (wanted self.old - length self.old) (length piece.now) }
        ensures bytes { self.new ≡ self.old ++ take result.count piece.now }
        ensures fed { result.fed ≡ answer self.new }
    {
        let wanted = wanted_of(&self.buffer[..self.len]);
        let count = (wanted - self.len).min(piece.len());
        put(&mut self.buffer, self.len, &piece[..count]);
        self.len += count;
        Taken {
            count,
            fed: answer_of(&self.buffer[..self.len]),
        }
    }

    /// Whether the last byte ended a frame, which `frame` then gives.
    pub fn is_whole(&self) -> bool
        ensures { result ≡ is_frame self.now }
    {
        match answer_of(&self.buffer[..self.len]) {
            Fed::Whole => true,
            Fed::More | Fed::TooLong { .. } => false,
        }
    }

    /// The frame that has just ended.
    pub fn frame(&self, alloc: Global) -> Result<Frame, Mem>
        requires { IsTrue (is_frame self.now) }
        ensures said { IfOk result (λ frame. frame ≡ message_of self.now) }
        ensures message { IfOk result IsMessage }
    {
        frame_of(alloc, &self.buffer[..self.len])
    }

    /// How many bytes of a begun frame have come. It is 2 behind a length that is too long.
    pub fn held(&self) -> usize
        ensures { result ≡ begun_len self.now }
    {
        match answer_of(&self.buffer[..self.len]) {
            Fed::Whole => 0,
            Fed::More | Fed::TooLong { .. } => self.len,
        }
    }

    /// How many bytes may be read from a link next, so that none is read behind the frame that has
    /// begun or is to begin: those that are missing to its length, or then to its end. There are
    /// none behind a length that is too long, and else at least one.
    pub fn awaited(&self) -> usize
        ensures bytes { result ≡ awaited self.now }
        ensures few { result ≤ 1028 }
        ensures some { is_bad self.now ≡ false → 0 < result }
    {
        let bytes = &self.buffer[..self.len];
        match answer_of(bytes) {
            Fed::More => wanted_of(bytes) - self.len,
            Fed::Whole => wanted_of(&[]),
            Fed::TooLong { .. } => 0,
        }
    }
}

/// What the bytes held say of the last one.
fn answer_of(bytes: &[u8]) -> Fed
    ensures { result ≡ answer bytes.now }
{
    if bytes.len() < 2 {
        return Fed::More;
    }
    let len = LittleEndian::read_u16(bytes);
    if len > 1024 {
        Fed::TooLong { len }
    } else if bytes.len() == HEADER + usize::from(len) {
        Fed::Whole
    } else {
        Fed::More
    }
}

/// How many bytes it takes until more can be said than that the frame goes on.
fn wanted_of(bytes: &[u8]) -> usize
    ensures { result ≡ wanted bytes.now }
{
    if bytes.len() < 2 {
        2
    } else {
        HEADER + usize::from(LittleEndian::read_u16(bytes))
    }
}

/// Writes a piece at a place.
fn put(buffer: &mut [u8], at: usize, piece: &[u8])
    requires { at + length piece.now ≤ length buffer.old }
    ensures { take (at + length piece.now) buffer.new ≡ take at buffer.old ++ piece.now }
{
    buffer[at..at + piece.len()].copy_from_slice(piece);
}

/// The frame that these bytes are.
fn frame_of(alloc: Global, bytes: &[u8]) -> Result<Frame, Mem>
    requires whole { IsTrue (is_frame bytes.now) }
    requires short { length bytes.now ≤ 1030 }
    ensures { IfOk result (λ frame. frame ≡ message_of bytes.now) }
{
    let payload = List::from_slice(alloc, &bytes[HEADER..])?;
    Ok(Frame {
        source: LittleEndian::read_u16(&bytes[2..]),
        kind: LittleEndian::read_u16(&bytes[4..]),
        payload,
    })
}
