//! The line about a source that isn't compiled.

ghost use Rattle.std.specs.Prelude.{◌≡◌, ◌+◌, ◌≤◌, [], ◌++◌, codes, length};
ghost use Rattle.arrayvec.specs.ArrayString.{array_string_len};
ghost use Rattle.aseba_tools.specs.StatusText.{code_text, expand_text, fault_text, field_text, lex_text, need_text, place_text, refusal_text, syntax_text};

use crate::telling::line::{Line, push_number};
use crate::telling::unsound::push_check;
use aseba_codegen::GenError;
use aseba_compile::Refusal;
use aseba_expand::ExpandError;
use aseba_lexer::LexError;
use aseba_parser::SyntaxError;
use aseba_tree::Pos;

/// Makes the line about a refusal.
pub fn refusal_line<'a>(line: &'a mut Line, refusal: &Refusal) -> &'a [u8]
    requires { line.old.bytes ≡ [] }
    ensures { result.now ≡ codes "aseba: refused " ++ refusal_text refusal.now ++ codes "\n" }
{
    line.push_str("aseba: refused ");
    push_refusal(line, refusal);
    line.push_str("\n");
    line.as_str().as_bytes()
}

/// Adds the name of a refusal with its place and its numbers.
fn push_refusal(line: &mut Line, refusal: &Refusal)
    requires { array_string_len line.old ≤ 32 }
    ensures text { line.new.bytes ≡ line.old.bytes ++ refusal_text refusal.now }
    ensures short { array_string_len line.new ≤ array_string_len line.old + 128 }
{
    match refusal {
        Refusal::Lex(error) => push_lex(line, error),
        Refusal::Syntax(error) => push_syntax(line, error),
        Refusal::Check(error) => push_check(line, error),
        Refusal::Expand(error) => push_expand(line, error),
        Refusal::Gen(error) => push_code(line, error),
        Refusal::Mem => line.push_str("Mem"),
    }
}

/// Adds why bytes are no tokens.
fn push_lex(line: &mut Line, error: &LexError)
    requires { array_string_len line.old ≤ 32 }
    ensures text { line.new.bytes ≡ line.old.bytes ++ lex_text error.now }
    ensures short { array_string_len line.new ≤ array_string_len line.old + 58 }
{
    match error {
        LexError::BadByte { at } => push_fault(line, *at, "BadByte"),
        LexError::BadNumber { at } => push_fault(line, *at, "BadNumber"),
        LexError::OpenComment { at } => push_fault(line, *at, "OpenComment"),
        LexError::Mem => line.push_str("Mem"),
    }
}

/// Adds why tokens are no program.
fn push_syntax(line: &mut Line, error: &SyntaxError)
    requires { array_string_len line.old ≤ 32 }
    ensures text { line.new.bytes ≡ line.old.bytes ++ syntax_text error.now }
    ensures short { array_string_len line.new ≤ array_string_len line.old + 58 }
{
    match error {
        SyntaxError::Syntax { at } => push_fault(line, *at, "Syntax"),
        SyntaxError::TooDeep { at } => push_fault(line, *at, "TooDeep"),
        SyntaxError::Mem => line.push_str("Mem"),
    }
}

/// Adds that variables and temporaries take more cells than there are.
fn push_expand(line: &mut Line, error: &ExpandError)
    requires { array_string_len line.old ≤ 32 }
    ensures text { line.new.bytes ≡ line.old.bytes ++ expand_text error.now }
    ensures short { array_string_len line.new ≤ array_string_len line.old + 68 }
{
    match error {
        ExpandError::VariablesFull { need, have } => {
            push_need(line, "VariablesFull", *need, *have)
        }
        ExpandError::Mem => line.push_str("Mem"),
    }
}

/// Adds that code takes more words or stack cells than there are.
fn push_code(line: &mut Line, error: &GenError)
    requires { array_string_len line.old ≤ 32 }
    ensures text { line.new.bytes ≡ line.old.bytes ++ code_text error.now }
    ensures short { array_string_len line.new ≤ array_string_len line.old + 68 }
{
    match error {
        GenError::CodeFull { need, have } => push_need(line, "CodeFull", *need, *have),
        GenError::StackFull { need, have } => push_need(line, "StackFull", *need, *have),
        GenError::Mem => line.push_str("Mem"),
    }
}

/// Adds a fault of this name at a place.
pub fn push_fault(line: &mut Line, at: Pos, name: &str)
    requires room { array_string_len line.old ≤ 32 }
    requires name { length name.now ≤ 16 }
    ensures text { line.new.bytes ≡ line.old.bytes ++ fault_text at name.now }
    ensures short { array_string_len line.new ≤ array_string_len line.old + 58 }
{
    push_place(line, at);
    line.push_str(" ");
    line.push_str(name);
}

/// Adds a place: its line and its column.
fn push_place(line: &mut Line, at: Pos)
    requires { array_string_len line.old ≤ 32 }
    ensures text { line.new.bytes ≡ line.old.bytes ++ place_text at }
    ensures short { array_string_len line.new ≤ array_string_len line.old + 41 }
{
    push_number(line, u64::from(at.line));
    line.push_str(":");
    push_number(line, u64::from(at.col));
}

/// Adds the name of what there is too little of, with how much is needed and how much there is.
pub fn push_need(line: &mut Line, name: &str, need: u64, have: u64)
    requires room { array_string_len line.old ≤ 32 }
    requires name { length name.now ≤ 16 }
    ensures text { line.new.bytes ≡ line.old.bytes ++ need_text name.now need have }
    ensures short { array_string_len line.new ≤ array_string_len line.old + 68 }
{
    line.push_str(name);
    push_field(line, "need", need);
    push_field(line, "have", have);
}

/// Adds a number behind its name.
pub fn push_field(line: &mut Line, name: &str, number: u64)
    requires room { array_string_len line.old ≤ 128 }
    requires name { length name.now ≤ 8 }
    ensures text { line.new.bytes ≡ line.old.bytes ++ field_text name.now number }
    ensures short { array_string_len line.new ≤ array_string_len line.old + length name.now + 22 }
{
    line.push_str(" ");
    line.push_str(name);
    line.push_str(" ");
    push_number(line, number);
}
