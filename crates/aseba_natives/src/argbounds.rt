ghost use Rattle.std.specs.Prelude.{◌≡◌, ◌+◌, ◌≤◌, ◌<◌, length, [], ◌∷◌};
ghost use Rattle.aseba_words.specs.declared.native.Native.TheVariants.{ArgBounds};
ghost use Rattle.aseba_words.specs.Natives.{run_native};
ghost use Rattle.aseba_natives.specs.Call.{cell, with_cell};

use crate::array::{array, first_place, greatest, least};

/// Stores the first place of the least cell of an array and the first of its greatest, in this
/// order, after all cells are read. Places count from 0.
pub fn argbounds(cells: &mut [i16], src: u16, argmin: u16, argmax: u16, len: u16)
    requires some { 0 < len }
    requires short { len ≤ 4096 }
    requires src_inside { src + len ≤ length cells.old }
    requires argmin_inside { argmin < length cells.old }
    requires argmax_inside { argmax < length cells.old }
    ensures { cells.new ≡ (run_native cell with_cell ArgBounds (src ∷ argmin ∷ argmax ∷ []) len cells.old).1 }
{
    let read = array(cells, src, len);
    let lowest = first_place(least(read), read);
    let highest = first_place(greatest(read), read);
    cells[usize::from(argmin)] = lowest;
    cells[usize::from(argmax)] = highest;
}
