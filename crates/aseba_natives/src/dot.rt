ghost use Rattle.std.specs.Prelude.{◌≡◌, ◌+◌, ◌≤◌, ◌<◌, ◌^◌, length, [], ◌∷◌, pos, unsigned_abs};
ghost use Rattle.std.specs.Int.{int_rem_euclid, int_div_euclid};
ghost use Rattle.aseba_words.specs.declared.native.Native.TheVariants.{Dot};
ghost use Rattle.aseba_words.specs.Natives.{run_native};
ghost use Rattle.aseba_natives.specs.Call.{cell, with_cell};

use crate::array::{array, product_sum};
use aseba_words::wrap;

/// Stores the exact sum of the products of two arrays, shifted right by the low five bits of the
/// cell at `shift`, towards minus infinity, and then wrapped.
pub fn dot(cells: &mut [i16], dest: u16, a: u16, b: u16, shift: u16, len: u16)
    requires dest_inside { dest < length cells.old }
    requires a_inside { a + len ≤ length cells.old }
    requires b_inside { b + len ≤ length cells.old }
    requires shift_inside { shift < length cells.old }
    requires short { len ≤ 4096 }
    ensures { cells.new ≡ (run_native cell with_cell Dot (dest ∷ a ∷ b ∷ shift ∷ []) len cells.old).1 }
{
    let sum = product_sum(array(cells, a, len), array(cells, b, len));
    let by = low_five_bits(cells[usize::from(shift)]);
    cells[usize::from(dest)] = wrap(shifted(sum, by));
}

fn low_five_bits(cell: i16) -> u32
    ensures value { result ≡ unsigned_abs (int_rem_euclid cell (pos 32)) }
    ensures bound { result < 32 }
{
    u32::from(cell.cast_unsigned() % 32)
}

/// The number divided by a power of two, towards minus infinity.
fn shifted(number: i64, by: u32) -> i64
    requires { by < 32 }
    ensures { result ≡ int_div_euclid number (pos (2 ^ by)) }
{
    number >> by
}
