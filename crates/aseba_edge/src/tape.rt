ghost use Rattle.std.specs.Prelude.{◌≡◌, ◌<◌, ◌≤◌, [], ◌∷◌, ◌++◌, IfNone, IfOk, IfSome, OnOk, drop, false, length, take};
ghost use Rattle.aseba_edge.specs.Link.{after_read, is_empty, next_bytes};
ghost use Rattle.aseba_edge.specs.Tape.{Laid, full, pending, size_of};

use aseba_words::{List, Mem};
use std::alloc::Global;
use std::marker::Model;

/// The bytes of an input in memory, in pieces, of which the first have been given.
#[derive(Debug, Drop)]
pub(crate) struct Tape {
    bytes: Vec<u8>,
    /// The lengths of the pieces as they were given. There is room for one per byte.
    given: Vec<usize>,
    /// Where the bytes that were given end.
    at: usize,
    /// The lengths of all pieces. Those from `next` on haven't been begun.
    sizes: Vec<usize>,
    next: usize,
    /// How much is left of the one before them.
    rest: usize,
    has_ended: bool,
}

impl Model for Tape {
    ghost use Rattle.std.specs.Prelude.{ℕ, List, ◌+◌, ◌-◌, ◌≤◌, drop, length, vec_len, vec_capacity};
    ghost use Rattle.aseba_edge.specs.Link.{Input};
    ghost use Rattle.aseba_edge.specs.Tape.{input_of, pending, IsTape};

    ghost Value = { Input (List ℕ) };

    ghost view = { λ t. input_of t.bytes.items t.given.items t.at
        (pending t.rest (drop t.next t.sizes.items)) t.has_ended };

    ghost invariant = { λ t. (vec_len t.given + (vec_len t.bytes - t.at) ≤ vec_capacity t.given)
        × IsTape (length t.bytes.items) t.given.items t.at (pending t.rest (drop t.next t.sizes.items)) };
}

/// Lays a piece behind the others. An empty one has no length.
#[tactic(auto, using(crate::proofs::Tapes::size_of_empty, crate::proofs::Tapes::size_of_some))]
fn lay_piece(bytes: &mut Vec<u8>, sizes: &mut Vec<usize>, piece: &[u8]) -> Result<(), Mem>
    ensures bytes { OnOk result (bytes.new.items ≡ bytes.old.items ++ piece.now) }
    ensures sizes { OnOk result (sizes.new.items ≡ sizes.old.items ++ size_of piece.now) }
{
    bytes.extend_from_slice(piece)?;
    if !piece.is_empty() {
        sizes.push(piece.len())?;
    }
    Ok(())
}

/// Lays pieces one behind the other.
fn lay(alloc: Global, pieces: &[List<u8>]) -> Result<(Vec<u8>, Vec<usize>), Mem>
    ensures { IfOk result (λ laid. Laid laid.0.items laid.1.items (full pieces.now)) }
{
    let mut bytes = Vec::new(alloc);
    let mut sizes = Vec::new(alloc);
    for piece in pieces {
        lay_piece(&mut bytes, &mut sizes, piece.as_slice())?;
    }
    Ok((bytes, sizes))
}

/// The length of what is given next, and the number of the piece behind it.
fn next_piece(sizes: &[usize], next: usize, rest: usize) -> Option<(usize, usize)>
    ensures some { IfSome result (λ found.
        found.0 ∷ drop found.1 sizes.now ≡ pending rest (drop next sizes.now)) }
    ensures none { IfNone result (pending rest (drop next sizes.now) ≡ []) }
{
    if rest > 0 {
        return Some((rest, next));
    }
    let size = *sizes.get(next)?;
    Some((size, next + 1))
}

impl Tape {
    /// A tape of these pieces, without those that are empty, of which none has been given.
    pub fn new(alloc: Global, pieces: &[List<u8>]) -> Result<Tape, Mem>
        ensures { IfOk result (λ tape. tape ≡
            record { given = []; left = full pieces.now; has_ended = false }) }
    {
        let (bytes, sizes) = lay(alloc, pieces)?;
        let given = Vec::with_capacity(alloc, bytes.len())?;
        Ok(Tape {
            bytes,
            given,
            at: 0,
            sizes,
            next: 0,
            rest: 0,
            has_ended: false,
        })
    }

    /// Whether nothing is left.
    pub fn is_at_end(&self) -> bool
        ensures { result ≡ is_empty self.now.left }
    {
        match next_piece(self.sizes.as_slice(), self.next, self.rest) {
            Some(_) => false,
            None => true,
        }
    }

    /// Gives the first bytes of the next piece, as many as there is room for, and answers how many
    /// they are: none at the end.
    pub fn read(&mut self, buf: &mut [u8]) -> usize
        requires { 0 < length buf.old }
        ensures fits { result ≤ length buf.old }
        ensures bytes { take result buf.new ≡ next_bytes (length buf.old) self.old.left }
        ensures end { result ≡ 0 → self.old.left ≡ [] }
        ensures tape { self.new ≡ after_read (length buf.old) self.old }
    {
        let piece = next_piece(self.sizes.as_slice(), self.next, self.rest);
        let Some((size, next)) = piece else {
            self.has_ended = true;
            return 0;
        };
        let count = size.min(buf.len());
        buf[..count].copy_from_slice(&self.bytes[self.at..self.at + count]);
        if self.given.push(count).is_err() {
            unreachable!("there is room for one per byte");
        }
        self.at += count;
        self.next = next;
        self.rest = size - count;
        count
    }
}
