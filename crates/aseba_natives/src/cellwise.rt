ghost use Rattle.std.specs.Prelude.{◌≡◌, ℕ, ◌+◌, ◌<◌, ◌≤◌, length, slice_index, int_div, ◌*ℤ◌};
ghost use Rattle.aseba_words.specs.Cell.{binary_value, divided};
ghost use Rattle.aseba_words.specs.Natives.{sizes, clamped, each};
ghost use Rattle.aseba_natives.specs.Call.{cell, with_cell, end_of};
ghost use Rattle.aseba_natives.specs.Operation.{native_of_cellwise, cellwise_value, param, HasRange, RangesInside};

use crate::arithmetic::{product, quotient};
use crate::end::NativeEnd;
use aseba_words::{Binary, binary, wrap};

/// A native that gives its destination cell by cell.
#[derive(Clone, Copy)]
pub enum Cellwise {
    Copy,
    Fill,
    AddScalar,
    Add,
    Sub,
    Mul,
    Div,
    Min,
    Max,
    Clamp,
    MulDiv,
}

impl Cellwise {
    /// Gives the destination's cells one after the other, up to the first zero divisor. Each is
    /// given of the cells as they stand then, so it may be read again where parameters overlap.
    pub fn run(self, cells: &mut [i16], starts: &[u16], len: u16) -> NativeEnd
        requires count { length starts.now ≡ length (sizes (native_of_cellwise self)) }
        requires inside { RangesInside 0 (sizes (native_of_cellwise self)) starts.now len (length cells.old) }
        ensures end { result ≡ end_of (each cell with_cell (slice_index starts.now 0) (cellwise_value self starts.now) len 0 cells.old).0 }
        ensures cells { cells.new ≡ (each cell with_cell (slice_index starts.now 0) (cellwise_value self starts.now) len 0 cells.old).1 }
    {
        for k in 0..usize::from(len) {
            match self.value(cells, starts, k) {
                Some(value) => cells[usize::from(starts[0]) + k] = value,
                None => return NativeEnd::Division,
            }
        }
        NativeEnd::Done
    }

    /// The value of the destination's cell `k` as the cells stand, none where it divides by zero.
    fn value(self, cells: &[i16], starts: &[u16], k: usize) -> Option<i16>
        requires { RangesInside 0 (sizes (native_of_cellwise self)) starts.now (k + 1) (length cells.now) }
        ensures { result ≡ cellwise_value self starts.now cells.now k }
    {
        match self {
            Cellwise::Copy => Some(read(cells, starts[1], k)),
            Cellwise::Fill => Some(read(cells, starts[1], 0)),
            Cellwise::AddScalar => {
                let scalar = read(cells, starts[2], 0);
                binary(Binary::Add, read(cells, starts[1], k), scalar)
            }
            Cellwise::Add => combined(Binary::Add, cells, starts, k),
            Cellwise::Sub => combined(Binary::Sub, cells, starts, k),
            Cellwise::Mul => combined(Binary::Mul, cells, starts, k),
            Cellwise::Div => combined(Binary::Div, cells, starts, k),
            Cellwise::Min => Some(read(cells, starts[1], k).min(read(cells, starts[2], k))),
            Cellwise::Max => Some(read(cells, starts[1], k).max(read(cells, starts[2], k))),
            Cellwise::Clamp => {
                let (low, high) = (read(cells, starts[2], k), read(cells, starts[3], k));
                Some(clamp(read(cells, starts[1], k), low, high))
            }
            Cellwise::MulDiv => {
                let (a, b) = (read(cells, starts[1], k), read(cells, starts[2], k));
                muldiv(a, b, read(cells, starts[3], k))
            }
        }
    }
}

/// An operator's value on the cells `k` of the two parameters behind the destination.
fn combined(op: Binary, cells: &[i16], starts: &[u16], k: usize) -> Option<i16>
    requires first { HasRange starts.now 1 (k + 1) (length cells.now) }
    requires second { HasRange starts.now 2 (k + 1) (length cells.now) }
    ensures { result ≡ binary_value op (param starts.now 1 cells.now k) (param starts.now 2 cells.now k) }
{
    binary(op, read(cells, starts[1], k), read(cells, starts[2], k))
}

/// The cell `k` from an address on.
fn read(cells: &[i16], start: u16, k: usize) -> i16
    requires { start + k < length cells.now }
    ensures { result ≡ cell cells.now start k }
{
    cells[usize::from(start) + k]
}

/// The low bound where the value is below it, else the high one where the value is above it.
fn clamp(value: i16, low: i16, high: i16) -> i16
    ensures { result ≡ clamped low high value }
{
    if value < low {
        low
    } else if value > high {
        high
    } else {
        value
    }
}

/// The exact product of two cells divided by a third, truncated towards zero, then wrapped.
fn muldiv(a: i16, b: i16, c: i16) -> Option<i16>
    ensures { result ≡ divided c (int_div (a *ℤ b) c) }
{
    if c == 0 {
        return None;
    }
    Some(wrap(quotient(product(a, b), i64::from(c))))
}
