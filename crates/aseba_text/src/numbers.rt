//! Numbers in texts: decimal digits without leading zeros, and `-` in front of a cell below 0.
ghost use Rattle.std.specs.Prelude.{◌≡◌, ◌≤◌, ◌-◌, negsuc, IfSome};
ghost use Rattle.aseba_text.specs.Numbers as spec;

use itoa::Buffer;
use std::str::from_utf8;

/// The number of at most 64 bits that the bytes spell, if they are its one spelling.
pub fn number(bytes: &[u8]) -> Option<u64>
    ensures { result ≡ spec.number_of bytes.now }
{
    match from_utf8(bytes) {
        Ok(text) => number_in(text),
        Err(_) => None,
    }
}

fn number_in(text: &str) -> Option<u64>
    ensures { result ≡ spec.number_of text.now }
{
    match text.parse::<u64>() {
        Ok(number) => {
            if Buffer::new().format(number) == text {
                Some(number)
            } else {
                None
            }
        }
        Err(_) => None,
    }
}

/// The number from `least` to `most`, both included, that the bytes spell.
pub fn number_from(least: u64, most: u64, bytes: &[u8]) -> Option<u64>
    ensures value { result ≡ spec.number_from least most bytes.now }
    ensures within { IfSome result (λ n. (least ≤ n) × (n ≤ most)) }
{
    match number(bytes) {
        Some(number) if least <= number && number <= most => Some(number),
        _ => None,
    }
}

/// The signed number of 16 bits that the bytes spell.
#[tactic(auto, unfolding(crate::specs::Numbers::cell_of))]
pub fn cell(bytes: &[u8]) -> Option<i16>
    ensures { result ≡ spec.cell_of bytes.now }
{
    match bytes {
        [] => None,
        [b'-', digits @ ..] => {
            let number = number_from(1, 32768, digits)?;
            Some(negative(number))
        }
        _ => {
            let number = number_from(0, 32767, bytes)?;
            Some(number as i16)
        }
    }
}

fn negative(number: u64) -> i16
    requires least { 1 ≤ number }
    requires most { number ≤ 32768 }
    ensures { result ≡ negsuc (number - 1) }
{
    (-(number as i32)) as i16
}
