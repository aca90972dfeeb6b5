// Floats and their bits. The logic has one NaN: its bits are 7FF8000000000000, and every NaN pattern's float is it.
ghost use Rattle.std.specs.Prelude.{◌≡◌, ◌≤◌, false};
ghost use Rattle.std.specs.Float.{fin, binary64};
ghost use Rattle.std.specs.Float.Ieee.{minus, of_bits, to_bits};

use std::num::{f64_from_bits_with_nan, f64_to_bits_with_nan};

// The bits of x; of a NaN, whose own bits no program can read, 7FF8000000000000.
pub fn bits_of(x: f64) -> u64
    ensures { result ≡ to_bits binary64 x }
{
    f64_to_bits_with_nan(x)
}

// The float of a pattern, a NaN's too.
pub fn of_bits(b: u64) -> f64
    ensures { result ≡ of_bits binary64 b }
{
    f64_from_bits_with_nan(b)
}

// 2^(k - 1024): the exponent's field of the bits is k - 1, the others 0.
#[tactic(auto, using(crate::proofs::Floats::power_is, crate::proofs::Floats::power_no_nan))]
pub(crate) fn power_of_two(k: u64) -> f64
    requires { (2 ≤ k) × (k ≤ 2047) }
    ensures { result ≡ fin false 1 (minus k 1024) }
{
    f64::from_bits((k - 1) * 4503599627370496)
}
