//! The fields of a line.
ghost use Rattle.std.specs.Prelude.{◌≡◌, ◌≤◌, nat_le, sum_by};
ghost use Rattle.aseba_text.specs.Fields as fields;
ghost use Rattle.aseba_text.specs.Numbers as numbers;
ghost use Rattle.aseba_tree.specs.Inside.{native_message_len, param_message_len};
ghost use Rattle.aseba_describe.specs.Reading as spec;

use crate::entry::Entry;
use crate::fault::LineFault;
use aseba_text::is_text;
use aseba_tree::{Const, Local, Native, Param, Sized, is_name};
use aseba_words::{
    LEAST_CODE, List, MOST_CELLS, MOST_CODE, MOST_EVENT_CELLS, MOST_NATIVE_BYTES, MOST_STACK, Name,
};
use std::alloc::Global;

/// What stands before the first blank, and behind it.
fn cut(text: &[u8]) -> Result<(&[u8], &[u8]), LineFault>
    ensures { spec.Gives (λ c. (c.0.now, c.1.now)) result (fields.cut text.now) }
{
    match aseba_text::cut(text) {
        Some(fields) => Ok(fields),
        None => Err(LineFault::Bad),
    }
}

/// A number of at most 16 bits without leading zeros.
fn number_from(least: u16, most: u16, text: &[u8]) -> Result<u16, LineFault>
    ensures { spec.Gives (λ n. n) result (numbers.number_from least most text.now) }
{
    match aseba_text::number_from(u64::from(least), u64::from(most), text) {
        Some(number) => Ok(number as u16),
        None => Err(LineFault::Bad),
    }
}

/// A signed number without leading zeros.
fn cell(text: &[u8]) -> Result<i16, LineFault>
    ensures { spec.Gives (λ n. n) result (numbers.cell_of text.now) }
{
    match aseba_text::cell(text) {
        Some(cell) => Ok(cell),
        None => Err(LineFault::Bad),
    }
}

fn name(alloc: Global, text: &[u8]) -> Result<Name, LineFault>
    ensures { spec.Gives (λ n. n) result (spec.name_of text.now) }
{
    if !is_name(text) {
        return Err(LineFault::Bad);
    }
    Ok(Name::new(alloc, text)?)
}

fn text(alloc: Global, bytes: &[u8]) -> Result<Name, LineFault>
    ensures { spec.Gives (λ n. n) result (spec.text_of bytes.now) }
{
    if !is_text(bytes) {
        return Err(LineFault::Bad);
    }
    Ok(Name::new(alloc, bytes)?)
}

#[tactic(auto, unfolding(crate::specs::Reading::sized_of))]
fn sized(alloc: Global, least: u16, most: u16, fields: &[u8]) -> Result<Sized, LineFault>
    ensures { spec.Gives (λ s. s) result (spec.sized_of least most fields.now) }
{
    let (word, rest) = cut(fields)?;
    let name = name(alloc, word)?;
    let size = number_from(least, most, rest)?;
    Ok(Sized { name, size })
}

#[tactic(auto, unfolding(crate::specs::Reading::local_of))]
fn local(alloc: Global, fields: &[u8]) -> Result<Local, LineFault>
    ensures { spec.Gives (λ l. l) result (spec.local_of fields.now) }
{
    let (word, rest) = cut(fields)?;
    let name = name(alloc, word)?;
    let about = text(alloc, rest)?;
    Ok(Local { name, text: about })
}

#[tactic(auto, unfolding(crate::specs::Reading::const_of))]
fn constant(alloc: Global, fields: &[u8]) -> Result<Const, LineFault>
    ensures { spec.Gives (λ c. c) result (spec.const_of fields.now) }
{
    let (word, rest) = cut(fields)?;
    let name = name(alloc, word)?;
    let value = cell(rest)?;
    Ok(Const { name, value })
}

#[tactic(auto, unfolding(crate::specs::Reading::param_of))]
fn param<'a>(alloc: Global, word: &[u8], rest: &'a [u8]) -> Result<(Param, &'a [u8]), LineFault>
    ensures { spec.Gives (λ p. (p.0, p.1.now)) result (spec.param_of word.now rest.now) }
{
    let size = cell(word)?;
    let (word, rest) = cut(rest)?;
    let name = name(alloc, word)?;
    if size == 0 {
        return Err(LineFault::Bad);
    }
    Ok((Param { size, name }, rest))
}

/// A parameter, or none at the `;`, and what stands behind it. Parameters may stand where there is
/// room.
#[tactic(auto, unfolding(crate::specs::Reading::next_of))]
fn next(alloc: Global, room: u8, fields: &[u8]) -> Result<(Option<Param>, &[u8]), LineFault>
    ensures { spec.Gives (λ p. (p.0, p.1.now)) result (spec.next_of room fields.now) }
{
    let (word, rest) = cut(fields)?;
    if word == b";".as_slice() {
        return Ok((None, rest));
    }
    if room == 0 {
        return Err(LineFault::Bad);
    }
    let (param, rest) = param(alloc, word, rest)?;
    Ok((Some(param), rest))
}

/// At most 16 parameters up to the `;`, and what stands behind it.
fn params(alloc: Global, fields: &[u8]) -> Result<(List<Param>, &[u8]), LineFault>
    ensures { spec.Gives (λ p. (p.0, p.1.now)) result (spec.params_of 17 fields.now) }
{
    let mut params = List::new(alloc);
    let mut rest = fields;
    let mut room: u8 = 17;
    while room > 0 {
        room -= 1;
        let (param, behind) = next(alloc, room, rest)?;
        match param {
            None => return Ok((params, behind)),
            Some(param) => params.add(param)?,
        }
        rest = behind;
    }
    Err(LineFault::Bad)
}

#[tactic(auto, unfolding(crate::specs::Reading::native_of))]
fn native(alloc: Global, fields: &[u8]) -> Result<Native, LineFault>
    ensures { spec.Gives (λ n. n) result (spec.native_of fields.now) }
{
    let (word, rest) = cut(fields)?;
    let name = name(alloc, word)?;
    let (params, rest) = params(alloc, rest)?;
    let text = text(alloc, rest)?;
    let native = Native { name, text, params };
    if !is_sendable(&native) {
        return Err(LineFault::Bad);
    }
    Ok(native)
}

/// What a line says.
pub fn entry(alloc: Global, line: &[u8]) -> Result<Entry, LineFault>
    ensures { spec.Gives (λ e. e) result (spec.entry_of line.now) }
{
    let (word, fields) = cut(line)?;
    entry_by(alloc, word, fields)
}

#[tactic(auto, unfolding(crate::specs::Reading::entry_by))]
fn entry_by(alloc: Global, word: &[u8], fields: &[u8]) -> Result<Entry, LineFault>
    ensures { spec.Gives (λ e. e) result (spec.entry_by word.now fields.now) }
{
    if word == b"node".as_slice() {
        Ok(Entry::Node(name(alloc, fields)?))
    } else if word == b"code".as_slice() {
        Ok(Entry::Code(number_from(LEAST_CODE, MOST_CODE, fields)?))
    } else if word == b"vars".as_slice() {
        Ok(Entry::Vars(number_from(1, MOST_CELLS, fields)?))
    } else if word == b"stack".as_slice() {
        Ok(Entry::Stack(number_from(1, MOST_STACK, fields)?))
    } else if word == b"id".as_slice() {
        Ok(Entry::Id(number_from(1, 65535, fields)?))
    } else {
        list_entry_by(alloc, word, fields)
    }
}

#[tactic(auto, unfolding(crate::specs::Reading::list_entry_by))]
fn list_entry_by(alloc: Global, word: &[u8], fields: &[u8]) -> Result<Entry, LineFault>
    ensures { spec.Gives (λ e. e) result (spec.list_entry_by word.now fields.now) }
{
    if word == b"variable".as_slice() {
        Ok(Entry::Variable(sized(alloc, 1, MOST_CELLS, fields)?))
    } else if word == b"local".as_slice() {
        Ok(Entry::Local(local(alloc, fields)?))
    } else if word == b"native".as_slice() {
        Ok(Entry::Native(native(alloc, fields)?))
    } else if word == b"event".as_slice() {
        Ok(Entry::Event(sized(alloc, 0, MOST_EVENT_CELLS, fields)?))
    } else if word == b"const".as_slice() {
        Ok(Entry::Const(constant(alloc, fields)?))
    } else {
        Err(LineFault::Bad)
    }
}

/// Whether the message by which a node tells of the native has at most 512 bytes: its name, its text,
/// the number of its parameters, and each one's size and name.
fn is_sendable(native: &Native) -> bool
    ensures { result ≡ nat_le (native_message_len native.now) 512 }
{
    let name = native.name.as_bytes().len();
    let text = native.text.as_bytes().len();
    if name > 508 || text > 508 - name {
        return false;
    }
    has_room(508 - name - text, native.params.as_slice())
}

/// Whether so many bytes are enough for the parameters of a native in its message.
fn has_room(room: usize, params: &[Param]) -> bool
    requires { room ≤ 512 }
    ensures { result ≡ nat_le (sum_by param_message_len params.now) room }
{
    let mut left = room;
    for param in params {
        let len = param.name.as_bytes().len();
        if len > 512 || len + 3 > left {
            return false;
        }
        left -= len + 3;
    }
    true
}
