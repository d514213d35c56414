ghost use Rattle.std.specs.Prelude.{◌≡◌, ◌≢◌, ◌≤◌, ◌^◌, ◌*ℤ◌, pos, unsigned_abs, int_div};

/// The exact product of two cells.
pub fn product(a: i16, b: i16) -> i64
    ensures value { result ≡ a *ℤ b }
    ensures bound { unsigned_abs result ≤ 2 ^ 30 }
{
    i64::from(a) * i64::from(b)
}

/// The quotient, truncated towards zero.
pub fn quotient(a: i64, divisor: i64) -> i64
    requires nonzero { divisor ≢ pos 0 }
    requires bound { unsigned_abs a ≤ 2 ^ 42 }
    ensures { result ≡ int_div a divisor }
{
    a / divisor
}
