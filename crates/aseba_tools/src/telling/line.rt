//! A line that is gathered in a place of fixed size, so that it takes no memory.

ghost use Rattle.std.specs.Prelude.{◌≡◌, ◌+◌, ◌≤◌, [], ◌++◌, codes, decimal, length};
ghost use Rattle.std.specs.Fmt.{signed_decimal};
ghost use Rattle.arrayvec.specs.ArrayString.{array_string_len};

use arrayvec::ArrayString;
use itoa::Buffer;

/// How many bytes a line has room for: the words in front, a place, a name and two numbers with
/// their names.
const ROOM: usize = 192;

/// A line in the making.
pub type Line = ArrayString<ROOM>;

/// Adds a number in decimal digits.
pub fn push_number(line: &mut Line, number: u64)
    requires { array_string_len line.old + 20 ≤ ROOM }
    ensures text { line.new.bytes ≡ line.old.bytes ++ decimal number }
    ensures short { array_string_len line.new ≤ array_string_len line.old + 20 }
{
    let mut digits = Buffer::new();
    line.push_str(digits.format(number));
}

/// Adds a number in decimal digits, with a sign where it is below 0.
pub fn push_signed(line: &mut Line, number: i64)
    requires { array_string_len line.old + 20 ≤ ROOM }
    ensures text { line.new.bytes ≡ line.old.bytes ++ signed_decimal number }
    ensures short { array_string_len line.new ≤ array_string_len line.old + 20 }
{
    let mut digits = Buffer::new();
    line.push_str(digits.format(number));
}

/// Makes the line of a number behind some words.
pub fn number_line<'a>(line: &'a mut Line, words: &str, number: u64) -> &'a [u8]
    requires empty { line.old.bytes ≡ [] }
    requires words { length words.now ≤ 32 }
    ensures { result.now ≡ words.now ++ decimal number ++ codes "\n" }
{
    line.push_str(words);
    push_number(line, number);
    line.push_str("\n");
    line.as_str().as_bytes()
}
