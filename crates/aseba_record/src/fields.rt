//! The fields of a line.
ghost use Rattle.std.specs.Prelude.{◌≤◌, IfOk};
ghost use Rattle.aseba_text.specs.Fields as text;
ghost use Rattle.aseba_text.specs.Numbers as numbers;
ghost use Rattle.aseba_record.specs.Reading as spec;

use crate::fault::LineFault;

/// What stands before the first blank, and behind it.
pub fn cut(line: &[u8]) -> Result<(&[u8], &[u8]), LineFault>
    ensures { spec.Gives (λ c. (c.0.now, c.1.now)) result (text.cut line.now) }
{
    match aseba_text::cut(line) {
        Some(fields) => Ok(fields),
        None => Err(LineFault::Bad),
    }
}

/// A number without leading zeros, from 0 on.
pub fn number(most: u64, bytes: &[u8]) -> Result<u64, LineFault>
    ensures value { spec.Gives (λ n. n) result (numbers.number_from 0 most bytes.now) }
    ensures within { IfOk result (λ n. n ≤ most) }
{
    match aseba_text::number_from(0, most, bytes) {
        Some(number) => Ok(number),
        None => Err(LineFault::Bad),
    }
}
