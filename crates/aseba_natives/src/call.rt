ghost use Rattle.std.specs.Prelude.{◌≡◌, length};
ghost use Rattle.aseba_words.specs.Natives.{sizes};
ghost use Rattle.aseba_natives.specs.Call.{call_end, call_cells, EndCause, is_valid_len, all_inside};
ghost use Rattle.aseba_natives.specs.Operation.{starts_fit};

use crate::end::NativeEnd;
use crate::operation::Operation;
use aseba_words::{Native, TEMPLATE};

/// Calls the native `id` on the cells. The arguments are the addresses of its parameters in order
/// and then the length of its templates, 1 to 4096. Cells that it stores are read again by what it
/// does next, so its parameters may overlap.
pub fn native(id: u16, cells: &mut [i16], args: &[u16]) -> NativeEnd
    ensures end { result ≡ call_end id args.now cells.old }
    ensures cells { cells.new ≡ call_cells id args.now cells.old }
    ensures cause { EndCause result id args.now cells.old }
{
    let Some(called) = Native::numbered(id) else {
        return NativeEnd::BadCall;
    };
    let Some((len, starts)) = args.split_last() else {
        return NativeEnd::BadCall;
    };
    if !fits(called, starts, *len, cells.len()) {
        return NativeEnd::BadCall;
    }
    Operation::of(called).run(cells, starts, *len)
}

/// Whether a native can be called with this length on parameters that begin at these addresses,
/// among as many cells as `count` says.
fn fits(called: Native, starts: &[u16], len: u16, count: usize) -> bool
    ensures { result ≡ starts_fit count (sizes called) len starts.now }
{
    let sizes = called.sizes();
    starts.len() == sizes.len() && is_valid_len(len) && all_inside(sizes, starts, len, count)
}

fn is_valid_len(len: u16) -> bool
    ensures { result ≡ is_valid_len len }
{
    (1..=4096).contains(&len)
}

/// Whether the cells of each parameter lie among as many as `count` says.
fn all_inside(sizes: &[i16], starts: &[u16], len: u16, count: usize) -> bool
    requires { length sizes.now ≡ length starts.now }
    ensures { result ≡ all_inside count len sizes.now starts.now }
{
    for (i, size) in sizes.iter().enumerate() {
        let cells = if *size == TEMPLATE {
            len
        } else {
            size.unsigned_abs()
        };
        if usize::from(starts[i]) + usize::from(cells) > count {
            return false;
        }
    }
    true
}
