ghost use Rattle.std.specs.Prelude.{◌≡◌, IfOk};

use aseba_words::{List, Mem};
use std::alloc::Global;

/// A list of the copies of a list's elements.
pub fn copies<T: Drop, F: Fn(&T) -> Result<T, Mem>>(
    alloc: Global,
    items: &List<T>,
    copy: F,
) -> Result<List<T>, Mem>
    requires can { F.IsAlwaysCallable copy }
    requires same { (item : _) (copied : _) → F.post copy item copied → IfOk copied (λ c. c ≡ item.now) }
    ensures { IfOk result (λ list. list ≡ items.now) }
{
    let mut copied = List::new(alloc);
    for item in items.as_slice() {
        copied.add(copy(item)?)?;
    }
    Ok(copied)
}
