ghost use Rattle.std.specs.Prelude.{◌≡◌, ◌+◌, ◌*◌, ◌^◌, ◌≤◌, ◌<◌, length, pos, unsigned_abs, neg_ℤ, ◌+ℤ◌, ◌≤ℤ◌};
ghost use Rattle.std.specs.List.{fold, position_or_len};
ghost use Rattle.std.specs.Ordering.{int_eq};
ghost use Rattle.aseba_words.specs.Natives.{product_sum, least, greatest, mean, first_place, cells_of};
ghost use Rattle.aseba_natives.specs.Call.{cell, with_cell};

use crate::arithmetic::{product, quotient};

/// The exact sum of the products, first with first and so on.
pub fn product_sum(a: &[i16], b: &[i16]) -> i64
    requires same_len { length a.now ≡ length b.now }
    requires short { length a.now ≤ 4096 }
    ensures value { result ≡ product_sum a.now b.now }
    ensures bound { unsigned_abs result ≤ 2 ^ 30 * length a.now }
{
    let mut sum = 0;
    for (k, x) in a.iter().enumerate() {
        sum += product(*x, b[k]);
    }
    sum
}

/// The least of the cells.
pub fn least(cells: &[i16]) -> i16
    requires { 0 < length cells.now }
    ensures { result ≡ least cells.now }
{
    let mut least = cells[0];
    for cell in &cells[1..] {
        least = least.min(*cell);
    }
    least
}

/// The greatest of the cells.
pub fn greatest(cells: &[i16]) -> i16
    requires { 0 < length cells.now }
    ensures { result ≡ greatest cells.now }
{
    let mut greatest = cells[0];
    for cell in &cells[1..] {
        greatest = greatest.max(*cell);
    }
    greatest
}

/// The mean of the cells, truncated towards zero.
pub fn mean(cells: &[i16]) -> i16
    requires some { 0 < length cells.now }
    requires short { length cells.now ≤ 4096 }
    ensures { result ≡ mean cells.now }
{
    quotient(sum(cells), cells.len() as i64) as i16
}

/// The exact sum of the cells.
fn sum(cells: &[i16]) -> i64
    requires { length cells.now ≤ 4096 }
    ensures value { result ≡ fold ◌+ℤ◌ (pos 0) cells.now }
    ensures low { neg_ℤ (pos (32768 * length cells.now)) ≤ℤ result }
    ensures high { result ≤ℤ pos (32767 * length cells.now) }
{
    let mut sum = 0;
    for cell in cells {
        sum += i64::from(*cell);
    }
    sum
}

/// The first place at which the cell stands, or the number of cells where it is nowhere.
pub fn first_place(wanted: i16, cells: &[i16]) -> i16
    requires { length cells.now ≤ 4096 }
    ensures { result ≡ first_place wanted cells.now }
{
    place_or_len(wanted, cells) as i16
}

fn place_or_len(wanted: i16, cells: &[i16]) -> usize
    ensures place { result ≡ position_or_len (λ x. int_eq x wanted) cells.now }
    ensures bound { result ≤ length cells.now }
{
    for (place, cell) in cells.iter().enumerate() {
        if *cell == wanted {
            return place;
        }
    }
    cells.len()
}

/// The cells from an address on.
pub fn array(cells: &[i16], start: u16, len: u16) -> &[i16]
    requires { start + len ≤ length cells.now }
    ensures value { result.now ≡ cells_of cell with_cell cells.now start len }
    ensures len { length result.now ≡ len }
{
    let start = usize::from(start);
    &cells[start..start + usize::from(len)]
}
