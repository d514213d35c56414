//! What the elements of an expression take: the expressions of one cell that stand for its cells.
//! Sums stop at the greatest number, which no source reaches.
ghost use Rattle.std.specs.Prelude.{◌≡◌};
ghost use Rattle.aseba_tree.specs.Numbers as tree;
ghost use Rattle.aseba_check.specs.Counted as told;

use crate::facts::Meaning;
use aseba_words::Binary;

/// What elements take together.
#[derive(Clone, Copy, Debug)]
pub struct Count {
    /// How many there are.
    pub cells: u64,
    /// The words of all of them.
    pub words: u64,
    /// The stack cells of the one that takes most.
    pub depth: u64,
    /// Whether the first one compares, or joins by `and` or `or`.
    pub compares: bool,
}

/// The words that a number takes where it is pushed.
pub fn number_words(value: i64) -> u64
    ensures { result ≡ tree.number_words value }
{
    if value < -2048 || 2047 < value { 2 } else { 1 }
}

/// No elements.
pub fn empty() -> Count
    ensures { result ≡ told.empty }
{
    Count {
        cells: 0,
        words: 0,
        depth: 0,
        compares: false,
    }
}

pub fn number_count(value: i16) -> Count
    ensures { result ≡ told.number_counted value }
{
    Count {
        cells: 1,
        words: number_words(i64::from(value)),
        depth: 1,
        compares: false,
    }
}

/// So many cells of a variable.
pub fn cells_count(cells: u64) -> Count
    ensures { result ≡ told.cells_counted cells }
{
    Count {
        cells,
        words: cells,
        depth: 1,
        compares: false,
    }
}

pub fn name_count(meaning: Option<Meaning>) -> Count
    ensures { result ≡ told.name_counted meaning }
{
    match meaning {
        Some(Meaning::Variable(size)) => cells_count(size.unwrap_or(0)),
        Some(Meaning::Constant(value)) => number_count(value),
        None => empty(),
    }
}

/// The cell of a variable at a computed index.
pub fn index_count(index: Count) -> Count
    ensures { result ≡ told.index_counted index }
{
    Count {
        cells: 1,
        words: index.words.saturating_add(2),
        depth: index.depth,
        compares: false,
    }
}

/// Elements, and others behind them.
pub fn joined(before: Count, next: Count) -> Count
    ensures { result ≡ told.joined before next }
{
    Count {
        cells: before.cells.saturating_add(next.cells),
        words: before.words.saturating_add(next.words),
        depth: before.depth.max(next.depth),
        compares: if before.cells == 0 {
            next.compares
        } else {
            before.compares
        },
    }
}

/// An operator in front of each element.
pub fn prefix_count(operand: Count) -> Count
    ensures { result ≡ told.prefix_counted operand }
{
    Count {
        cells: operand.cells,
        words: operand.words.saturating_add(operand.cells),
        depth: operand.depth,
        compares: false,
    }
}

/// An operator between each two elements of two expressions. The left one is on the stack while
/// the right one is computed.
pub fn infix_count(op: Binary, left: Count, right: Count) -> Count
    ensures { result ≡ told.infix_counted op left right }
{
    let operands = left.words.saturating_add(right.words);
    Count {
        cells: left.cells,
        words: operands.saturating_add(left.cells),
        depth: left.depth.max(right.depth.saturating_add(1)),
        compares: op.is_of_one_cell(),
    }
}
