//! What a run tells, and its text.
ghost use Rattle.std.specs.Prelude.{◌≡◌, ◌∷◌, [], ◌++◌, codes, decimal, OnOk};
ghost use Rattle.std.specs.Fmt.{signed_decimal};
ghost use Rattle.aseba_tree.specs.Line.{blank_number, event_text, lines_text, report_text, told, var, end};
ghost use Rattle.aseba_driver.specs.Reported.{name_view, report_view};

use crate::moment::Moment;
use aseba_text::Text;
use aseba_words::Mem;

/// An event as it is told: by its name, or by the number of one that the project doesn't have.
#[derive(Clone, Copy, Debug)]
pub enum EventName<'a> {
    Named(&'a [u8]),
    Numbered(u16),
}

/// What happens at a moment of a run.
#[derive(Clone, Copy, Debug)]
pub enum Report<'a> {
    /// The event's handler began.
    Began(EventName<'a>),
    /// The event has no handler.
    Ignored(EventName<'a>),
    /// The event found a handler that is paused.
    Dropped(EventName<'a>),
    /// The running handler was killed before its effect of this line.
    Killed { line: u32 },
    /// Cells of this variable were set from outside.
    WasSet(&'a [u8]),
    /// The event was sent with these cells.
    Sent(EventName<'a>, &'a [i16]),
    /// This line stopped at a division by zero.
    Division { line: u32 },
    /// This line stopped at an index out of the bounds of a variable.
    Bounds { line: u32, size: u16, index: i16 },
}

/// Adds the line of what happens at a moment.
pub fn push_told(text: &mut Text, moment: Moment, report: Report) -> Result<(), Mem>
    ensures { OnOk result (text.new ≡ text.old ++ lines_text (told moment.ticks moment.effects (report_view report.entry) ∷ [])) }
{
    push_moment(text, moment)?;
    push_report(text, report)?;
    text.push(b"\n")?;
    Ok(())
}

/// Adds a moment.
fn push_moment(text: &mut Text, moment: Moment) -> Result<(), Mem>
    ensures { OnOk result (text.new ≡ text.old ++ (decimal moment.ticks ++ blank_number moment.effects ++ codes " ")) }
{
    text.push_number(moment.ticks)?;
    text.push(b" ")?;
    text.push_number(moment.effects)?;
    text.push(b" ")
}

/// Adds what happens, without its moment.
fn push_report(text: &mut Text, report: Report) -> Result<(), Mem>
    ensures { OnOk result (text.new ≡ text.old ++ report_text (report_view report.entry)) }
{
    match report {
        Report::Began(event) => push_named(text, b"event ", event),
        Report::Ignored(event) => push_named(text, b"ignored ", event),
        Report::Dropped(event) => push_named(text, b"dropped ", event),
        Report::Killed { line } => push_line(text, b"killed ", line),
        Report::WasSet(name) => {
            text.push(b"set ")?;
            text.push(name)?;
            Ok(())
        }
        Report::Sent(event, cells) => {
            push_named(text, b"emit ", event)?;
            text.push_cells(cells)
        }
        Report::Division { line } => push_line(text, b"division ", line),
        Report::Bounds { line, size, index } => push_bounds(text, line, size, index),
    }
}

/// Adds a word and an event.
fn push_named(text: &mut Text, word: &[u8], event: EventName) -> Result<(), Mem>
    ensures { OnOk result (text.new ≡ text.old ++ (word.now ++ event_text (name_view event.entry))) }
{
    text.push(word)?;
    match event {
        EventName::Named(name) => text.push(name),
        EventName::Numbered(number) => text.push_number(u64::from(number)),
    }
}

/// Adds a word and a source line.
fn push_line(text: &mut Text, word: &[u8], line: u32) -> Result<(), Mem>
    ensures { OnOk result (text.new ≡ text.old ++ (word.now ++ decimal line)) }
{
    text.push(word)?;
    text.push_number(u64::from(line))
}

/// Adds where an index was out of bounds, the size and the index.
fn push_bounds(text: &mut Text, line: u32, size: u16, index: i16) -> Result<(), Mem>
    ensures { OnOk result (text.new ≡ text.old ++ (codes "bounds " ++ decimal line ++ blank_number size ++ codes " " ++ signed_decimal index)) }
{
    push_line(text, b"bounds ", line)?;
    text.push(b" ")?;
    text.push_number(u64::from(size))?;
    text.push(b" ")?;
    text.push_cell(index)
}

/// Adds the line of a variable with its cells.
pub fn push_variable(text: &mut Text, name: &[u8], cells: &[i16]) -> Result<(), Mem>
    ensures { OnOk result (text.new ≡ text.old ++ lines_text (var name.now cells.now ∷ [])) }
{
    text.push(b"var ")?;
    text.push(name)?;
    text.push_cells(cells)?;
    text.push(b"\n")?;
    Ok(())
}

/// Adds the last line.
pub fn push_end(text: &mut Text, moment: Moment) -> Result<(), Mem>
    ensures { OnOk result (text.new ≡ text.old ++ lines_text (end moment.ticks moment.effects ∷ [])) }
{
    text.push(b"end ")?;
    text.push_number(moment.ticks)?;
    text.push(b" ")?;
    text.push_number(moment.effects)?;
    text.push(b"\n")?;
    Ok(())
}
