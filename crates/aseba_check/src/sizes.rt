//! Numbers of cells, where there are any, and the values of constants.
ghost use Rattle.std.specs.Prelude.{◌≡◌};
ghost use Rattle.aseba_tree.specs.Sizes as sizes;
ghost use Rattle.aseba_tree.specs.Faults as faults;
ghost use Rattle.aseba_check.specs.Told as told;

use aseba_words::{Binary, Unary, binary, unary};

pub fn divides(op: Binary) -> bool
    ensures { result ≡ faults.divides op }
{
    match op {
        Binary::Div | Binary::Rem => true,
        _ => false,
    }
}

pub fn is_more_than_one(size: Option<u64>) -> bool
    ensures { result ≡ faults.is_more_than_one size }
{
    match size {
        Some(size) => 1 < size,
        None => false,
    }
}

pub fn unary_size(op: Unary, size: Option<u64>) -> Option<u64>
    ensures { result ≡ sizes.unary_size op size }
{
    match op {
        Unary::Not => Some(1),
        _ => size,
    }
}

pub fn binary_size(op: Binary, left: Option<u64>, right: Option<u64>) -> Option<u64>
    ensures { result ≡ sizes.binary_size op left right }
{
    if op.is_of_one_cell() {
        Some(1)
    } else {
        common_size(left, right)
    }
}

fn common_size(left: Option<u64>, right: Option<u64>) -> Option<u64>
    ensures { result ≡ sizes.common_size left right }
{
    match (left, right) {
        (Some(left), Some(right)) => { if left == right { Some(left) } else { None } }
        _ => None,
    }
}

/// The sum of two sizes. No source is so long that it reaches the greatest number.
pub fn added_size(left: Option<u64>, right: Option<u64>) -> Option<u64>
    ensures { result ≡ told.added_size left right }
{
    match (left, right) {
        (Some(left), Some(right)) => Some(left.saturating_add(right)),
        _ => None,
    }
}

/// How many cells there are from one to another.
pub fn range_size(first: Option<i16>, last: Option<i16>) -> Option<u64>
    ensures { result ≡ sizes.range_size first last }
{
    match (first, last) {
        (Some(first), Some(last)) => {
            if last < first {
                None
            } else {
                Some(u64::from(last.abs_diff(first)) + 1)
            }
        }
        _ => None,
    }
}

/// A size as faults tell it.
pub fn signed(size: u64) -> i64
    ensures { result ≡ told.signed size }
{
    size.min(9_223_372_036_854_775_807) as i64
}

pub fn unary_constant(op: Unary, value: Option<i16>) -> Option<i16>
    ensures { result ≡ sizes.unary_constant op value }
{
    match value {
        Some(value) => Some(unary(op, value)),
        None => None,
    }
}

pub fn binary_constant(op: Binary, left: Option<i16>, right: Option<i16>) -> Option<i16>
    ensures { result ≡ sizes.binary_constant op left right }
{
    match (left, right) {
        (Some(left), Some(right)) => binary(op, left, right),
        _ => None,
    }
}

pub fn is_zero(value: Option<i16>) -> bool
    ensures { result ≡ told.is_zero value }
{
    match value {
        Some(value) => value == 0,
        None => false,
    }
}
