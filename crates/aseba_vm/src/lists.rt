ghost use Rattle.std.specs.Prelude.{◌≡◌, ◌+◌, ◌<◌, ◌≤◌, length, map, Some, IfSome};
ghost use Rattle.aseba_vm.specs.Lists.{overwritten, address_of, handler_of};
ghost use Rattle.aseba_vm.specs.Outcome.{index_in};
ghost use Rattle.aseba_vm.specs.Arrival.{told};
ghost use Rattle.aseba_vm.specs.State.{NamesInside, named, applied, none_held};

use crate::shape::Shape;

/// An index that is at least 0 and below the size, if it is one.
pub fn index_in(size: u16, index: i32) -> Option<u16>
    ensures { result ≡ index_in size index }
{
    if 0 <= index && index < i32::from(size) {
        Some(index as u16)
    } else {
        None
    }
}

/// Puts a number into a named cell, if there is one.
pub fn put_named(cells: &mut [i16], name: Option<u16>, number: u16)
    requires { IfSome name (λ address. address < length cells.old) }
    ensures { cells.new ≡ named name number cells.old }
{
    if let Some(address) = name {
        cells[usize::from(address)] = number.cast_signed();
    }
}

/// Puts elements in the place of as many others, from the start on.
pub fn overwrite_words(words: &mut [u16], start: usize, new: &[u16])
    requires { start + length new.now ≤ length words.old }
    ensures { words.new ≡ overwritten start new.now words.old }
{
    words[start..start + new.len()].copy_from_slice(new);
}

/// The same for cells.
pub fn overwrite_cells(cells: &mut [i16], start: usize, new: &[i16])
    requires { start + length new.now ≤ length cells.old }
    ensures { cells.new ≡ overwritten start new.now cells.old }
{
    cells[start..start + new.len()].copy_from_slice(new);
}

/// Puts an event's sender and its arguments into the cells that are named for them.
pub fn tell(cells: &mut [i16], shape: &Shape, source: u16, args: &[i16])
    requires names { NamesInside shape.now }
    requires size { length cells.old ≡ shape.now.cells }
    ensures { cells.new ≡ told shape.now source args.now cells.old }
{
    put_named(cells, shape.source, source);
    let len = args.len().min(usize::from(shape.args_len));
    if len > 0 {
        overwrite_cells(cells, usize::from(shape.args_at), &args[..len]);
    }
}

/// Holds values for the cells from the start on.
pub fn hold(held: &mut [Option<i16>], start: usize, values: &[i16])
    requires { start + length values.now ≤ length held.old }
    ensures { held.new ≡ overwritten start (map Some values.now) held.old }
{
    for (place, value) in values.iter().enumerate() {
        held[start + place] = Some(*value);
    }
}

/// Moves each held value into its cell.
#[tactic(auto, using(crate::proofs::Held::held_values))]
pub fn apply(cells: &mut [i16], held: &mut [Option<i16>])
    requires { length held.old ≡ length cells.old }
    ensures applied { cells.new ≡ applied cells.old held.old }
    ensures none { held.new ≡ none_held held.old }
{
    for address in 0..cells.len() {
        if let Some(value) = held[address] {
            cells[address] = value;
            held[address] = None;
        }
    }
}

/// The address beside the first entry of an event, in a table of events and addresses by turns.
pub fn address_of(event: u16, mut table: &[u16]) -> Option<u16>
    ensures { result ≡ address_of event table.entry.now }
{
    while let [entry, address, rest @ ..] = table {
        if *entry == event {
            return Some(*address);
        }
        table = rest;
    }
    None
}

/// The address at which an event's handler begins. The first word of the code is the length of the
/// table with itself; a table that is longer than the code ends with it.
pub fn handler_of(event: u16, code: &[u16]) -> Option<u16>
    ensures { result ≡ handler_of event code.now }
{
    match code {
        [] => None,
        [size, words @ ..] => {
            let len = usize::from(*size).saturating_sub(1).min(words.len());
            address_of(event, &words[..len])
        }
    }
}
