ghost use Rattle.std.specs.Prelude.{◌≡◌, ◌++◌, [], ◌∷◌, IfOk};

use aseba_words::{List, Mem};

/// The list with one more element at its end.
pub fn with<T: Drop>(list: List<T>, value: T) -> Result<List<T>, Mem>
    ensures { IfOk result (λ more. more ≡ list ++ value ∷ []) }
{
    let mut more = list;
    more.add(value)?;
    Ok(more)
}
