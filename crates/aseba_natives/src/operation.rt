ghost use Rattle.std.specs.Prelude.{◌≡◌, ◌<◌, ◌≤◌, length};
ghost use Rattle.aseba_words.specs.Natives.{sizes, run_native};
ghost use Rattle.aseba_natives.specs.Call.{cell, with_cell, end_of};
ghost use Rattle.aseba_natives.specs.Operation.{native_of, RangesInside};

use crate::argbounds::argbounds;
use crate::cellwise::Cellwise;
use crate::dot::dot;
use crate::end::NativeEnd;
use crate::stat::stat;
use aseba_words::Native;

/// What a native does.
#[derive(Clone, Copy)]
pub enum Operation {
    /// The cells of the destination, one after the other.
    Each(Cellwise),
    /// The sum of the products of two arrays.
    Dot,
    /// The least cell, the greatest and the mean of an array.
    Stat,
    /// The places of the least cell and the greatest in an array.
    ArgBounds,
}

impl Operation {
    /// How a native does its work.
    pub fn of(native: Native) -> Operation
        ensures { native_of result ≡ native }
    {
        match native {
            Native::Copy => Operation::Each(Cellwise::Copy),
            Native::Fill => Operation::Each(Cellwise::Fill),
            Native::AddScalar => Operation::Each(Cellwise::AddScalar),
            Native::Add => Operation::Each(Cellwise::Add),
            Native::Sub => Operation::Each(Cellwise::Sub),
            Native::Mul => Operation::Each(Cellwise::Mul),
            Native::Div => Operation::Each(Cellwise::Div),
            Native::Min => Operation::Each(Cellwise::Min),
            Native::Max => Operation::Each(Cellwise::Max),
            Native::Clamp => Operation::Each(Cellwise::Clamp),
            Native::Dot => Operation::Dot,
            Native::MulDiv => Operation::Each(Cellwise::MulDiv),
            Native::Stat => Operation::Stat,
            Native::ArgBounds => Operation::ArgBounds,
        }
    }

    /// Runs the native on parameters that begin at these addresses.
    pub fn run(self, cells: &mut [i16], starts: &[u16], len: u16) -> NativeEnd
        requires count { length starts.now ≡ length (sizes (native_of self)) }
        requires some { 0 < len }
        requires short { len ≤ 4096 }
        requires inside { RangesInside 0 (sizes (native_of self)) starts.now len (length cells.old) }
        ensures end { result ≡ end_of (run_native cell with_cell (native_of self) starts.now len cells.old).0 }
        ensures cells { cells.new ≡ (run_native cell with_cell (native_of self) starts.now len cells.old).1 }
    {
        match self {
            Operation::Each(cellwise) => return cellwise.run(cells, starts, len),
            Operation::Dot => dot(cells, starts[0], starts[1], starts[2], starts[3], len),
            Operation::Stat => stat(cells, starts[0], starts[1], starts[2], starts[3], len),
            Operation::ArgBounds => argbounds(cells, starts[0], starts[1], starts[2], len),
        }
        NativeEnd::Done
    }
}
