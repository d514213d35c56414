//! The line about a source whose tree isn't sound in its project.

ghost use Rattle.std.specs.Prelude.{◌≡◌, ◌+◌, ◌≤◌, ◌++◌, length};
ghost use Rattle.arrayvec.specs.ArrayString.{array_string_len};
ghost use Rattle.aseba_tools.specs.StatusText.{check_text, far_text, index_text, signed_field_text, sizes_text};

use crate::telling::line::{Line, push_signed};
use crate::telling::refused::{push_fault, push_field, push_need};
use aseba_check::CheckError;
use aseba_tree::Pos;

/// Adds the name of a rule that a source breaks with its place and its numbers, or of what there is
/// no room for.
pub fn push_check(line: &mut Line, error: &CheckError)
    requires { array_string_len line.old ≤ 32 }
    ensures text { line.new.bytes ≡ line.old.bytes ++ check_text error.now }
    ensures short { array_string_len line.new ≤ array_string_len line.old + 118 }
{
    match error {
        CheckError::Unknown { at } => push_fault(line, *at, "Unknown"),
        CheckError::Duplicate { at } => push_fault(line, *at, "Duplicate"),
        CheckError::NotConstant { at } => push_fault(line, *at, "NotConstant"),
        CheckError::ConstantDivision { at } => push_fault(line, *at, "ConstantDivision"),
        CheckError::ZeroStep { at } => push_fault(line, *at, "ZeroStep"),
        CheckError::BadSize { at, want, got } => push_sizes(line, *at, "BadSize", *want, *got),
        CheckError::IndexOut { at, size, index } => push_index(line, *at, *size, *index),
        CheckError::NotScalar { at } => push_fault(line, *at, "NotScalar"),
        CheckError::EventSize { at, want, got } => push_sizes(line, *at, "EventSize", *want, *got),
        CheckError::ArgCount { at, want, got } => push_sizes(line, *at, "ArgCount", *want, *got),
        CheckError::Recursion { at } => push_fault(line, *at, "Recursion"),
        CheckError::VariablesFull { need, have } => push_need(line, "VariablesFull", *need, *have),
        CheckError::SubroutineFar { at, start } => push_far(line, *at, *start),
        CheckError::Mem => line.push_str("Mem"),
    }
}

/// Adds a fault of two numbers that differ.
fn push_sizes(line: &mut Line, at: Pos, name: &str, want: i64, got: i64)
    requires room { array_string_len line.old ≤ 32 }
    requires name { length name.now ≤ 16 }
    ensures text { line.new.bytes ≡ line.old.bytes ++ sizes_text at name.now want got }
    ensures short { array_string_len line.new ≤ array_string_len line.old + 118 }
{
    push_fault(line, at, name);
    push_signed_field(line, "want", want);
    push_signed_field(line, "got", got);
}

/// Adds the fault of an index.
fn push_index(line: &mut Line, at: Pos, size: i64, index: i64)
    requires { array_string_len line.old ≤ 32 }
    ensures text { line.new.bytes ≡ line.old.bytes ++ index_text at size index }
    ensures short { array_string_len line.new ≤ array_string_len line.old + 118 }
{
    push_fault(line, at, "IndexOut");
    push_signed_field(line, "size", size);
    push_signed_field(line, "index", index);
}

/// Adds the fault of a subroutine that no call reaches.
fn push_far(line: &mut Line, at: Pos, start: u64)
    requires { array_string_len line.old ≤ 32 }
    ensures text { line.new.bytes ≡ line.old.bytes ++ far_text at start }
    ensures short { array_string_len line.new ≤ array_string_len line.old + 118 }
{
    push_fault(line, at, "SubroutineFar");
    push_field(line, "start", start);
}

/// Adds a number, with its sign, behind its name.
fn push_signed_field(line: &mut Line, name: &str, number: i64)
    requires room { array_string_len line.old ≤ 128 }
    requires name { length name.now ≤ 8 }
    ensures text { line.new.bytes ≡ line.old.bytes ++ signed_field_text name.now number }
    ensures short { array_string_len line.new ≤ array_string_len line.old + length name.now + 22 }
{
    line.push_str(" ");
    line.push_str(name);
    line.push_str(" ");
    push_signed(line, number);
}
