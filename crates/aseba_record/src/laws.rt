//! Laws of recordings. A law is a function with an empty body, so that a check proves what it says.
ghost use Rattle.std.specs.Prelude.{◌≡◌, ℕ, true, false, List};
ghost use Rattle.std.specs.Str.Lines.{lines};
ghost use Rattle.aseba_tree.specs.declared.description.Sized.{Sized};
ghost use Rattle.aseba_tree.specs.declared.project.Project.{Project};
ghost use Rattle.aseba_describe.specs.Plain.{IsPlain};
ghost use Rattle.aseba_dump.specs.declared.timed.Timed.{Timed};
ghost use Rattle.aseba_record.specs.declared.format.Format.TheVariants.{Old, New};
ghost use Rattle.aseba_record.specs.Events.{AreEntries};
ghost use Rattle.aseba_record.specs.Grammar.{Recording, RowsIn, is_new};
ghost use Rattle.aseba_record.specs.Playing.{SendsInOrder};
ghost use Rattle.aseba_record.specs.Texts.{record_text, old_record_text};

/// What was recorded is read again, in both formats.
pub fn recorded_is_read()
    ensures new { (project : Project) (timed : List Timed) → IsPlain project → AreEntries timed → Recording (record_text project timed) timed }
    ensures old { (timed : List Timed) → AreEntries timed → Recording (old_record_text timed) timed }
{}

/// A recording is of one format: its first line tells which.
pub fn first_line_tells()
    ensures new { (text : List ℕ) (events : List Sized) (timed : List Timed) → RowsIn (New events) (lines text) timed → is_new text ≡ true }
    ensures old { (text : List ℕ) (timed : List Timed) → RowsIn Old (lines text) timed → is_new text ≡ false }
{}

/// At whatever moments a player is asked, it sends its frames in order, each once.
pub fn sends_in_order()
    ensures { SendsInOrder }
{}
