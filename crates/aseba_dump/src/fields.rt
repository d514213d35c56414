//! Fields of messages, each added behind a blank.
ghost use Rattle.std.specs.Prelude.{◌≡◌, ◌++◌, flat_map, codes, OnOk};
ghost use Rattle.aseba_words.specs.Spelled.{blank_number};
ghost use Rattle.aseba_dump.specs.Field as spec;
ghost use Rattle.aseba_dump.specs.DumpText.{bytes_text};

use aseba_text::Text;
use aseba_tree::Param;
use aseba_words::{Mem, is_within};
use std::alloc::Global;

/// Adds numbers, each behind a blank. For want of memory some of them may stand there.
pub fn push_numbers(out: &mut Text, numbers: &[u16]) -> Result<(), Mem>
    ensures { OnOk result (out.new ≡ out.old ++ flat_map blank_number numbers.now) }
{
    for number in numbers {
        push_number(out, *number)?;
    }
    Ok(())
}

fn push_number(out: &mut Text, number: u16) -> Result<(), Mem>
    ensures { OnOk result (out.new ≡ out.old ++ blank_number number) }
{
    out.push(b" ")?;
    out.push_number(u64::from(number))
}

/// Adds a word as a signed number behind a blank.
pub fn push_signed_word(out: &mut Text, word: u16) -> Result<(), Mem>
    ensures { OnOk result (out.new ≡ out.old ++ spec.blank_signed word) }
{
    out.push(b" ")?;
    out.push_cell(word.cast_signed())
}

/// Adds words as signed numbers, each behind a blank. For want of memory some of them may stand
/// there.
pub fn push_signed_words(out: &mut Text, words: &[u16]) -> Result<(), Mem>
    ensures { OnOk result (out.new ≡ out.old ++ spec.signed_words words.now) }
{
    for word in words {
        push_signed_word(out, *word)?;
    }
    Ok(())
}

/// Adds words of code, each behind a blank.
pub fn push_code(out: &mut Text, words: &[u16]) -> Result<(), Mem>
    ensures { OnOk result (out.new ≡ out.old ++ spec.field_text (spec.code words.now)) }
{
    out.push_words(words)
}

/// Adds a text between quotes behind a blank.
pub fn push_quoted(alloc: Global, out: &mut Text, text: &[u8]) -> Result<(), Mem>
    ensures { OnOk result (out.new ≡ out.old ++ spec.quoted text.now) }
{
    out.push(b" \"")?;
    push_escaped(alloc, out, text)?;
    out.push(b"\"")
}

fn push_escaped(alloc: Global, out: &mut Text, text: &[u8]) -> Result<(), Mem>
    ensures { OnOk result (out.new ≡ out.old ++ flat_map spec.byte_text text.now) }
{
    for b in text {
        push_byte(alloc, out, *b)?;
    }
    Ok(())
}

fn push_byte(alloc: Global, out: &mut Text, b: u8) -> Result<(), Mem>
    ensures { OnOk result (out.new ≡ out.old ++ spec.byte_text b) }
{
    if stands_for_itself(b) {
        return out.push(&[b]);
    }
    out.push(b"\\")?;
    out.push_bytes(alloc, &[b])
}

/// Whether a byte stands in a text for itself: it can be read, and is neither `"` nor `\`.
fn stands_for_itself(b: u8) -> bool
    ensures { result ≡ spec.stands_for_itself b }
{
    is_within(b' ', b'~', b) && b != b'"' && b != b'\\'
}

/// Adds the parameters of a native, each as its size and its name.
pub fn push_params(alloc: Global, out: &mut Text, params: &[Param]) -> Result<(), Mem>
    ensures { OnOk result (out.new ≡ out.old ++ spec.field_text (spec.params params.now)) }
{
    for param in params {
        push_param(alloc, out, param)?;
    }
    Ok(())
}

fn push_param(alloc: Global, out: &mut Text, param: &Param) -> Result<(), Mem>
    ensures { OnOk result (out.new ≡ out.old ++ spec.param_text param.now) }
{
    out.push(b" ")?;
    out.push_cell(param.size)?;
    push_quoted(alloc, out, param.name.as_bytes())
}

/// Adds bytes in hexadecimal digits, or a dash where there are none. For want of memory nothing is
/// added.
pub fn push_bytes(alloc: Global, out: &mut Text, bytes: &[u8]) -> Result<(), Mem>
    ensures { OnOk result (out.new ≡ out.old ++ bytes_text bytes.now) }
{
    match bytes {
        [] => out.push(b"-"),
        _ => out.push_bytes(alloc, bytes),
    }
}
