//! What statements take of code, stack and temporaries. Sums stop at the greatest number, which no
//! source reaches.
ghost use Rattle.std.specs.Prelude.{◌≡◌};
ghost use Rattle.aseba_check.specs.CountedStatements as told;

use crate::counting::count::Count;

/// What statements take together.
#[derive(Clone, Copy, Debug)]
pub struct Taken {
    /// Words of code.
    pub words: u64,
    /// Stack cells of the one that takes most.
    pub depth: u64,
    /// Temporaries of the one that takes most.
    pub room: u64,
}

/// No statements.
pub fn none_taken() -> Taken
    ensures { result ≡ told.none_taken }
{
    Taken {
        words: 0,
        depth: 0,
        room: 0,
    }
}

/// Statements, and others behind them.
pub fn behind(before: Taken, next: Taken) -> Taken
    ensures { result ≡ told.behind before next }
{
    Taken {
        words: before.words.saturating_add(next.words),
        depth: before.depth.max(next.depth),
        room: before.room.max(next.room),
    }
}

/// The same with so many words more.
pub fn longer(taken: Taken, words: u64) -> Taken
    ensures { result ≡ told.longer taken words }
{
    Taken {
        words: taken.words.saturating_add(words),
        ..taken
    }
}

/// An assignment of elements to fixed cells, or to the cell of an index.
pub fn assigned(index: Option<Count>, value: Count) -> Taken
    ensures { result ≡ told.assigned index value }
{
    match index {
        Some(index) => stored_at(index, value),
        None => stored(value),
    }
}

/// One element is stored at once. Of more than one, each goes into a temporary first, and is then
/// loaded and stored.
fn stored(value: Count) -> Taken
    ensures { result ≡ told.stored value }
{
    if value.cells == 1 {
        return Taken {
            words: value.words.saturating_add(1),
            depth: value.depth,
            room: 0,
        };
    }
    let kept = value.words.saturating_add(value.cells);
    let loaded = kept.saturating_add(value.cells);
    Taken {
        words: loaded.saturating_add(value.cells),
        depth: value.depth,
        room: value.cells,
    }
}

/// The value is on the stack while the index is computed.
fn stored_at(index: Count, value: Count) -> Taken
    ensures { result ≡ told.stored_at index value }
{
    let computed = value.words.saturating_add(index.words);
    Taken {
        words: computed.saturating_add(2),
        depth: value.depth.max(index.depth.saturating_add(1)),
        room: 0,
    }
}

/// A condition with its branch. The branch has the operator of a comparison, an `and` or an `or`.
/// Any other element is compared with 0, which is pushed.
pub fn branched(test: Count) -> Taken
    ensures { result ≡ told.branched test }
{
    if test.compares {
        Taken {
            words: test.words.saturating_add(1),
            depth: test.depth,
            room: 0,
        }
    } else {
        Taken {
            words: test.words.saturating_add(3),
            depth: test.depth.max(2),
            room: 0,
        }
    }
}

/// Elements put into temporaries, and so many words for what they are put there for.
pub fn kept_for(elements: Count, words: u64) -> Taken
    ensures { result ≡ told.kept_for elements words }
{
    let kept = elements.words.saturating_add(elements.cells);
    Taken {
        words: kept.saturating_add(words),
        depth: elements.depth,
        room: elements.cells,
    }
}

/// The call of a subroutine that takes so many stack cells.
pub fn callsub_taken(depth: Option<u64>) -> Taken
    ensures { result ≡ told.callsub_taken depth }
{
    Taken {
        words: 1,
        depth: depth.unwrap_or(0).saturating_add(1),
        room: 0,
    }
}
