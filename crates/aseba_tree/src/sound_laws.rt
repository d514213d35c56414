//! Laws of the definitions of a source's soundness. The functions do nothing: what they ensure is
//! the law.

ghost use Rattle.aseba_tree.specs.State.{Program};
ghost use Rattle.aseba_tree.specs.SoundLaws.{SoundIsFaultless, SoundHasCells, SoundIsLaidOut, ConstantHasValue, SoundHasElements};

/// A source is sound exactly where it breaks no rule, its variables have room, and on a large node
/// no subroutine begins above word 4095.
pub fn sound_is_faultless()
    ensures { (program : Program) → SoundIsFaultless program }
{}

/// Each expression of a sound source has at least one cell.
pub fn sound_has_cells()
    ensures { (program : Program) → SoundHasCells program }
{}

/// What a sound source knows of its variables is how they are laid out.
pub fn sound_is_laid_out()
    ensures { (program : Program) → SoundIsLaidOut program }
{}

/// An expression of numbers and constants that has a value has it in a run, too.
pub fn constant_has_value()
    ensures { (program : Program) → ConstantHasValue program }
{}

/// An expression of a sound source has as many elements as cells.
pub fn sound_has_elements()
    ensures { (program : Program) → SoundHasElements program }
{}
