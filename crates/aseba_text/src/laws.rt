//! What is read is spelled so, and what is spelled so is read.
ghost use Rattle.std.specs.Prelude.{◌≡◌, ◌↔◌, ◌<◌, ◌^◌, ◌∷◌, ◌++◌, ℕ, ℤ, List, true, Some, decimal};
ghost use Rattle.std.specs.Fmt.{signed_decimal};
ghost use Rattle.aseba_text.specs.Fields.{cut, has_no_blank};
ghost use Rattle.aseba_text.specs.Numbers.{IsCell, number_of, cell_of};

/// A text is cut at its first blank, and nowhere else.
pub fn cut_is_at_a_blank()
    ensures { (text front behind : List ℕ) → (cut text ≡ Some (front, behind)) ↔ ((has_no_blank front ≡ true) × (text ≡ front ++ 32 ∷ behind)) }
{}

/// A number of at most 64 bits is read from its decimal digits, and from nothing else.
pub fn number_is_spelled()
    ensures { (text : List ℕ) (n : ℕ) → (number_of text ≡ Some n) ↔ ((n < 2 ^ 64) × (text ≡ decimal n)) }
{}

/// A cell is read from its decimal digits with its sign, and from nothing else.
pub fn cell_is_spelled()
    ensures { (text : List ℕ) (z : ℤ) → (cell_of text ≡ Some z) ↔ (IsCell z × (text ≡ signed_decimal z)) }
{}
