//! What a line of a script says, field by field.
ghost use Rattle.std.specs.Prelude.{◌≡◌, ◌+◌, ◌<◌, map, option_map, All};
ghost use Rattle.aseba_text.specs.Fields as text;
ghost use Rattle.aseba_text.specs.Numbers as numbers;
ghost use Rattle.aseba_tree.specs.Inside.{InsideProject};
ghost use Rattle.aseba_tree.specs.View.{placed_view, project_view};
ghost use Rattle.aseba_driver.specs.Reading as spec;

use crate::entry::{Act, Entry};
use crate::fault::LineFault;
use crate::names::{number_of_event, variable_named};
use aseba_text::first_field;
use aseba_tree::{Placed, Project};
use aseba_words::{List, MOST_EVENT_CELLS, Name};
use std::alloc::Global;

/// The latest time of an entry.
pub const MOST_TIME: u64 = 100_000_000;

/// The first field, behind which another has to stand, and what stands behind it.
fn field(line: &[u8]) -> Result<(&[u8], &[u8]), LineFault>
    ensures { spec.Gives (λ c. (c.0.now, text.fields c.1.now)) result (spec.first_of (text.fields line.now)) }
{
    let (field, behind) = first_field(line);
    match behind {
        Some(rest) => Ok((field, rest)),
        None => Err(LineFault::Bad),
    }
}

/// A number without leading zeros, from 0 on.
fn number(most: u64, text: &[u8]) -> Result<u64, LineFault>
    ensures { spec.Gives (λ n. n) result (numbers.number_from 0 most text.now) }
{
    match aseba_text::number_from(0, most, text) {
        Some(number) => Ok(number),
        None => Err(LineFault::Bad),
    }
}

/// A signed number without leading zeros.
fn cell(text: &[u8]) -> Result<i16, LineFault>
    ensures { spec.Gives (λ n. n) result (numbers.cell_of text.now) }
{
    match aseba_text::cell(text) {
        Some(cell) => Ok(cell),
        None => Err(LineFault::Bad),
    }
}

/// The cells that the remaining fields are.
fn cells(alloc: Global, fields: Option<&[u8]>) -> Result<List<i16>, LineFault>
    ensures { spec.Gives (λ l. l) result (spec.cells_of (text.fields_behind (option_map (λ rest. rest.now) fields.entry))) }
{
    let mut cells = List::new(alloc);
    let mut rest = fields;
    while let Some(fields) = rest {
        let (field, behind) = first_field(fields);
        let cell = cell(field)?;
        cells.add(cell)?;
        rest = behind;
    }
    Ok(cells)
}

/// The source that fields tell by the word `from`, or else 0, and what stands behind it.
#[tactic(auto, unfolding(crate::specs::Reading::source_of))]
fn source(fields: Option<&[u8]>) -> Result<(u16, Option<&[u8]>), LineFault>
    ensures { spec.Gives (λ s. (s.0, text.fields_behind (option_map (λ rest. rest.now) s.1))) result (spec.source_of (text.fields_behind (option_map (λ rest. rest.now) fields.entry))) }
{
    let Some(text) = fields else {
        return Ok((0, None));
    };
    let (word, behind) = first_field(text);
    if word != b"from".as_slice() {
        return Ok((0, fields));
    }
    let Some(behind) = behind else {
        return Err(LineFault::Bad);
    };
    let (word, behind) = first_field(behind);
    let source = number(65535, word)?;
    Ok((source as u16, behind))
}

/// An event that arrives at a time, by the fields behind the word `event`.
#[tactic(auto, unfolding(crate::specs::Reading::event_of))]
fn event(alloc: Global, project: &Project, time: u64, fields: &[u8]) -> Result<Entry, LineFault>
    requires { InsideProject project.now }
    ensures { spec.Gives (λ e. e) result (spec.event_of (project_view project.now) time (text.fields fields.now)) }
{
    let (name, rest) = first_field(fields);
    let Some(event) = number_of_event(project, name) else {
        return Err(LineFault::Bad);
    };
    let (source, rest) = source(rest)?;
    let args = cells(alloc, rest)?;
    if args.as_slice().len() > usize::from(MOST_EVENT_CELLS) {
        return Err(LineFault::Bad);
    }
    let name = Name::new(alloc, name)?;
    Ok(Entry {
        time,
        name,
        act: Act::Event {
            event,
            source,
            args,
        },
    })
}

/// Values that are set at a time, by the fields behind the word `set`.
#[tactic(auto, unfolding(crate::specs::Reading::set_of))]
fn set(alloc: Global, places: &[Placed], time: u64, fields: &[u8]) -> Result<Entry, LineFault>
    requires { All (λ place. place.start + place.size < 65536) places.now }
    ensures { spec.Gives (λ e. e) result (spec.set_of (map placed_view places.now) time (text.fields fields.now)) }
{
    let (name, rest) = field(fields)?;
    let Some(place) = variable_named(places, name) else {
        return Err(LineFault::Bad);
    };
    values(alloc, place, time, name, rest)
}

/// Values that are set in a variable, by the fields behind its name.
#[tactic(auto, unfolding(crate::specs::Reading::values_of))]
fn values(
    alloc: Global,
    place: &Placed,
    time: u64,
    name: &[u8],
    fields: &[u8],
) -> Result<Entry, LineFault>
    requires { place.now.start + place.now.size < 65536 }
    ensures { spec.Gives (λ e. e) result (spec.values_of (placed_view place.now) time name.now (text.fields fields.now)) }
{
    let (word, rest) = first_field(fields);
    let first = number(65535, word)?;
    let values = cells(alloc, rest)?;
    let count = values.as_slice().len() as u64;
    if count == 0 || first + count > u64::from(place.size) {
        return Err(LineFault::Bad);
    }
    let name = Name::new(alloc, name)?;
    Ok(Entry {
        time,
        name,
        act: Act::Set {
            start: place.start + first as u16,
            values,
        },
    })
}

/// The entry that a line says.
#[tactic(auto, unfolding(crate::specs::Reading::entry_of))]
pub fn entry(
    alloc: Global,
    project: &Project,
    places: &[Placed],
    line: &[u8],
) -> Result<Entry, LineFault>
    requires inside { InsideProject project.now }
    requires near { All (λ place. place.start + place.size < 65536) places.now }
    ensures { spec.Gives (λ e. e) result (spec.entry_of (project_view project.now) (map placed_view places.now) line.now) }
{
    let (word, rest) = field(line)?;
    let time = number(MOST_TIME, word)?;
    let (word, rest) = field(rest)?;
    if word == b"event".as_slice() {
        event(alloc, project, time, rest)
    } else if word == b"set".as_slice() {
        set(alloc, places, time, rest)
    } else {
        Err(LineFault::Bad)
    }
}
