//! Cells as the words of messages, and words as cells.
ghost use Rattle.std.specs.Prelude.{◌≡◌, IfOk};
ghost use Rattle.aseba_node.specs.Told.{words_of};
ghost use Rattle.aseba_node.specs.Delivered.{cells_of};

use aseba_words::{List, Mem};
use std::alloc::Global;

/// Cells as words.
pub fn words_of(alloc: Global, cells: &[i16]) -> Result<List<u16>, Mem>
    ensures { IfOk result (λ words. words ≡ words_of cells.now) }
{
    let words = cells
        .iter()
        .map(|cell| cell.cast_unsigned())
        .collect(alloc)?;
    Ok(List::from_vec(words))
}

/// Words as cells.
pub fn cells_of(alloc: Global, words: &[u16]) -> Result<Vec<i16>, Mem>
    ensures { IfOk result (λ cells. cells.items ≡ cells_of words.now) }
{
    let cells = words.iter().map(|word| word.cast_signed()).collect(alloc)?;
    Ok(cells)
}
