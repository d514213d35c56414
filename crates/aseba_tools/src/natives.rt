//! Whether natives are known ones.

ghost use Rattle.std.specs.Prelude.{◌≡◌, ◌↔◌, IsTrue, MatchOption, Some, map, slice_get};
ghost use Rattle.aseba_tools.specs.ProjectWord.{AreFirst, IsFirstOther, heading, headings};

use aseba_tree::{Native, Param};

/// How many natives come before the first that differs from the known one of its number, by name or
/// by the sizes of its parameters; none where none differs.
pub fn first_other(natives: &[Native], known: &[Native]) -> Option<u64>
    ensures { MatchOption result (AreFirst natives.now known.now) (IsFirstOther natives.now known.now) }
{
    for (i, native) in natives.iter().enumerate() {
        if !is_known(native, known, i) {
            return Some(i as u64);
        }
    }
    None
}

/// Whether a native is the known one of a number.
fn is_known(native: &Native, known: &[Native], i: usize) -> bool
    ensures { IsTrue result ↔ (slice_get (headings known.now) i ≡ Some (heading native.now)) }
{
    i < known.len() && is_same(native, &known[i])
}

/// Whether two natives have one name and parameters of the same sizes.
fn is_same(a: &Native, b: &Native) -> bool
    ensures { IsTrue result ↔ (heading a.now ≡ heading b.now) }
{
    a.name == b.name && have_same_sizes(a.params.as_slice(), b.params.as_slice())
}

fn have_same_sizes(a: &[Param], b: &[Param]) -> bool
    ensures { IsTrue result ↔ (map (λ p. p.size) a.now ≡ map (λ p. p.size) b.now) }
{
    if a.len() != b.len() {
        return false;
    }
    for i in 0..a.len() {
        if !is_same_size(&a[i], &b[i]) {
            return false;
        }
    }
    true
}

fn is_same_size(a: &Param, b: &Param) -> bool
    ensures { IsTrue result ↔ (a.now.size ≡ b.now.size) }
{
    a.size == b.size
}
