ghost use Rattle.std.specs.Prelude.{◌≡◌, ◌+◌, ◌≤◌, ◌<◌, length, [], ◌∷◌};
ghost use Rattle.aseba_words.specs.declared.native.Native.TheVariants.{Stat};
ghost use Rattle.aseba_words.specs.Natives.{run_native};
ghost use Rattle.aseba_natives.specs.Call.{cell, with_cell};

use crate::array::{array, greatest, least, mean};

/// Stores the least cell of an array, the greatest and their truncated mean, in this order, after
/// all cells are read.
pub fn stat(cells: &mut [i16], src: u16, min: u16, max: u16, middle: u16, len: u16)
    requires some { 0 < len }
    requires short { len ≤ 4096 }
    requires src_inside { src + len ≤ length cells.old }
    requires min_inside { min < length cells.old }
    requires max_inside { max < length cells.old }
    requires middle_inside { middle < length cells.old }
    ensures { cells.new ≡ (run_native cell with_cell Stat (src ∷ min ∷ max ∷ middle ∷ []) len cells.old).1 }
{
    let read = array(cells, src, len);
    let (lowest, highest, average) = (least(read), greatest(read), mean(read));
    cells[usize::from(min)] = lowest;
    cells[usize::from(max)] = highest;
    cells[usize::from(middle)] = average;
}
