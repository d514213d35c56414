ghost use Rattle.std.specs.Prelude.{◌≡◌, ◌<◌, ◌^◌, ◌*ℤ◌, pos};
ghost use Rattle.std.specs.Int.{int_div_euclid};
ghost use Rattle.aseba_words.specs.Cell.{wrapped, IsWrapOf, shift, unary_value, binary_value};

use crate::operators::{Binary, Unary};

/// The low 16 bits of a whole number, as a cell.
pub fn wrap(value: i64) -> i16
    ensures value { result ≡ wrapped value }
    ensures multiple { IsWrapOf value result }
{
    low_bits(value)
}

fn low_bits(value: i64) -> i16
    ensures { result ≡ wrapped value }
{
    (value.rem_euclid(65536) as u16).cast_signed()
}

/// The value of an operator on one cell.
pub fn unary(op: Unary, a: i16) -> i16
    ensures { result ≡ unary_value op a }
{
    match op {
        Unary::Minus => low_bits(-i64::from(a)),
        Unary::Abs => low_bits(i64::from(a).abs()),
        Unary::BitNot => low_bits(-i64::from(a) - 1),
        Unary::Not => i16::from(a == 0),
    }
}

/// The value of an operator on two cells, none where it divides by zero.
pub fn binary(op: Binary, a: i16, b: i16) -> Option<i16>
    ensures { result ≡ binary_value op a b }
{
    let left = i64::from(a);
    let right = i64::from(b);
    let value = match op {
        Binary::Shl => shifted_left(a, shift_of(b)),
        Binary::Shr => shifted_right(a, shift_of(b)),
        Binary::Add => low_bits(left + right),
        Binary::Sub => low_bits(left - right),
        Binary::Mul => low_bits(left * right),
        Binary::Div if b == 0 => return None,
        Binary::Rem if b == 0 => return None,
        Binary::Div => low_bits(left / right),
        Binary::Rem => low_bits(left % right),
        Binary::BitOr => a | b,
        Binary::BitXor => a ^ b,
        Binary::BitAnd => a & b,
        Binary::Equal => i16::from(a == b),
        Binary::Differ => i16::from(a != b),
        Binary::Above => i16::from(a > b),
        Binary::AtLeast => i16::from(a >= b),
        Binary::Below => i16::from(a < b),
        Binary::AtMost => i16::from(a <= b),
        Binary::Or => i16::from(a != 0 || b != 0),
        Binary::And => i16::from(a != 0 && b != 0),
    };
    Some(value)
}

/// The cell times a power of two.
fn shifted_left(a: i16, by: u32) -> i16
    requires { by < 16 }
    ensures { result ≡ wrapped (a *ℤ pos (2 ^ by)) }
{
    low_bits(i64::from(a) * (1 << by))
}

/// The cell divided by a power of two, towards minus infinity, so that the sign stays.
fn shifted_right(a: i16, by: u32) -> i16
    requires { by < 16 }
    ensures { result ≡ wrapped (int_div_euclid a (pos (2 ^ by))) }
{
    a >> by
}

/// How far a shift moves: the low four bits of its right side.
fn shift_of(b: i16) -> u32
    ensures shift { result ≡ shift b }
    ensures bound { result < 16 }
{
    u32::from(b.cast_unsigned() % 16)
}
