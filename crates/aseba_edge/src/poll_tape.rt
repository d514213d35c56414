ghost use Rattle.std.specs.Prelude.{◌≡◌, ◌<◌, [], ◌∷◌, ◌++◌, IfNone, IfOk, IfSome, OnOk, drop, false, length};
ghost use Rattle.aseba_edge.specs.Link.{IsInRoom, IsPolled, after_poll, is_failed, next_given};
ghost use Rattle.aseba_edge.specs.declared.poll.PollAnswer.TheVariants.{Bytes};
ghost use Rattle.aseba_edge.specs.PollTape.{Laid, bytes_of, full, pending, turn_of};

use crate::poll::{PollAnswer, Polled};
use crate::reserved::push_reserved;
use crate::turn::Turn;
use aseba_words::{List, Mem};
use std::alloc::Global;
use std::marker::Model;

/// The bytes of a polled input in memory, in turns, of which the first have been given.
#[derive(Debug, Drop)]
pub(crate) struct PollTape {
    bytes: Vec<u8>,
    /// The turns as they were given. There is room for each that can come.
    given: Vec<Turn>,
    /// Where the bytes that were given end.
    at: usize,
    /// All turns. Those from `next` on haven't been begun.
    turns: Vec<Turn>,
    next: usize,
    /// How much is left of the one before them.
    rest: usize,
    has_ended: bool,
}

impl Model for PollTape {
    ghost use Rattle.std.specs.Prelude.{◌+◌, ◌≤◌, drop, length, vec_len, vec_capacity};
    ghost use Rattle.aseba_edge.specs.declared.poll.PollAnswer.{PollAnswer};
    ghost use Rattle.aseba_edge.specs.Link.{Input};
    ghost use Rattle.aseba_edge.specs.PollTape.{input_of, most_answers, pending, IsTape};

    ghost Value = { Input PollAnswer };

    ghost view = { λ t. input_of t.bytes.items t.given.items t.at
        (pending t.rest (drop t.next t.turns.items)) t.has_ended };

    ghost invariant = { λ t.
        (vec_len t.given + most_answers (pending t.rest (drop t.next t.turns.items)) ≤ vec_capacity t.given)
        × IsTape (length t.bytes.items) t.given.items t.at (pending t.rest (drop t.next t.turns.items)) };
}

/// The turn that comes next, and the number of the one behind it.
fn next_turn(turns: &[Turn], next: usize, rest: usize) -> Option<(Turn, usize)>
    ensures some { IfSome result (λ found.
        found.0 ∷ drop found.1 turns.now ≡ pending rest (drop next turns.now)) }
    ensures none { IfNone result (pending rest (drop next turns.now) ≡ []) }
{
    if rest > 0 {
        return Some((Turn::Piece(rest), next));
    }
    let turn = *turns.get(next)?;
    Some((turn, next + 1))
}

/// Lays an answer behind the others. An empty piece has no turn.
fn lay_answer(bytes: &mut Vec<u8>, turns: &mut Vec<Turn>, answer: &PollAnswer) -> Result<(), Mem>
    ensures bytes { OnOk result (bytes.new.items ≡ bytes.old.items ++ bytes_of answer.now) }
    ensures turns { OnOk result (turns.new.items ≡ turns.old.items ++ turn_of answer.now) }
{
    match answer {
        PollAnswer::Bytes(piece) => lay_piece(bytes, turns, piece.as_slice()),
        PollAnswer::Later => Ok(turns.push(Turn::Wait)?),
    }
}

#[tactic(auto, using(crate::proofs::PollTapes::turn_of_empty, crate::proofs::PollTapes::turn_of_some))]
fn lay_piece(bytes: &mut Vec<u8>, turns: &mut Vec<Turn>, piece: &[u8]) -> Result<(), Mem>
    ensures bytes { OnOk result (bytes.new.items ≡ bytes.old.items ++ piece.now) }
    ensures turns { OnOk result (turns.new.items ≡ turns.old.items ++ turn_of (Bytes piece.now)) }
{
    bytes.extend_from_slice(piece)?;
    if !piece.is_empty() {
        turns.push(Turn::Piece(piece.len()))?;
    }
    Ok(())
}

/// Lays answers one behind the other.
fn lay(alloc: Global, answers: &[PollAnswer]) -> Result<(Vec<u8>, Vec<Turn>), Mem>
    ensures { IfOk result (λ laid. Laid laid.0.items laid.1.items (full answers.now)) }
{
    let mut bytes = Vec::new(alloc);
    let mut turns = Vec::new(alloc);
    for answer in answers {
        lay_answer(&mut bytes, &mut turns, answer)?;
    }
    Ok((bytes, turns))
}

impl PollTape {
    /// A tape of these answers, without pieces that are empty, of which none has been given.
    pub fn new(alloc: Global, answers: &[PollAnswer]) -> Result<PollTape, Mem>
        ensures { IfOk result (λ tape. tape ≡
            record { given = []; left = full answers.now; has_ended = false }) }
    {
        let (bytes, turns) = lay(alloc, answers)?;
        let given = Vec::with_capacity(alloc, bytes.len() + turns.len())?;
        Ok(PollTape {
            bytes,
            given,
            at: 0,
            turns,
            next: 0,
            rest: 0,
            has_ended: false,
        })
    }

    /// Gives the next turn: of a piece its first bytes, as many as there is room for.
    pub fn poll(&mut self, buf: &mut [u8]) -> Polled
        requires { 0 < length buf.old }
        ensures fits { IsInRoom (length buf.old) result }
        ensures never { is_failed result ≡ false }
        ensures answer { IsPolled (next_given (length buf.old) self.old.left) result buf.new }
        ensures tape { self.new ≡ after_poll (length buf.old) result self.old }
    {
        let Some((turn, next)) = next_turn(self.turns.as_slice(), self.next, self.rest) else {
            self.has_ended = true;
            return Polled::Ended;
        };
        self.next = next;
        match turn {
            Turn::Wait => {
                push_reserved(&mut self.given, Turn::Wait);
                self.rest = 0;
                Polled::NotYet
            }
            Turn::Piece(size) => {
                let count = size.min(buf.len());
                buf[..count].copy_from_slice(&self.bytes[self.at..self.at + count]);
                push_reserved(&mut self.given, Turn::Piece(count));
                self.at += count;
                self.rest = size - count;
                Polled::Piece(count)
            }
        }
    }
}
