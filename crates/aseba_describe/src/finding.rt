//! Where a text tells of its natives.
ghost use Rattle.std.specs.Prelude.{◌≤◌, MatchOption};
ghost use Rattle.std.specs.Str.Lines.{lines};
ghost use Rattle.aseba_describe.specs.NativeLines.{IsNativeLine, natives_told};

use aseba_text::first_line;

/// The line, counted from 1, that tells of the native which so many others come before; none where
/// the text tells of no more natives than that.
pub fn native_line(text: &[u8], others: u64) -> Option<u64>
    ensures { MatchOption result (natives_told (lines text.now) ≤ others) (IsNativeLine (lines text.now) others) }
{
    let mut rest = text;
    let mut n: u64 = 0;
    let mut left = others;
    while !rest.is_empty() {
        let (line, behind) = first_line(rest);
        n += 1;
        if line.starts_with(b"native ") {
            if left == 0 {
                return Some(n);
            }
            left -= 1;
        }
        rest = behind;
    }
    None
}
