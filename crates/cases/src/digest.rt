// The digest of a list of floats, as in oracle/digest.rs.
ghost use Rattle.std.specs.Prelude.{◌≡◌};
ghost use Rattle.cases.specs.Digest.{mixed_of, with_of, digest_of};

use vectors::bits::bits_of;

// d * 1000003 + x modulo a prime below 2^40. The inner remainders keep the sum within 64 bits: d's changes nothing, and
// x's does not where x is half a pattern.
#[tactic(auto, unfolding(crate::specs::Digest::mixed_of))]
pub fn mixed(d: u64, x: u64) -> u64
    ensures { result ≡ mixed_of d x }
{
    (d % 1099511627689 * 1000003 + x % 4294967296) % 1099511627689
}

// d with one more float: its high half, then its low half.
#[tactic(auto, unfolding(crate::specs::Digest::with_of))]
pub fn with(d: u64, x: f64) -> u64
    ensures { result ≡ with_of d x }
{
    let b = bits_of(x);
    mixed(mixed(d, b / 4294967296), b % 4294967296)
}

// The digest of a list starts at 1.
#[tactic(auto, unfolding(crate::specs::Digest::digest_of))]
pub fn digest(values: &[f64]) -> u64
    ensures { result ≡ digest_of values.now }
{
    values.iter().fold(1, |d, x| with(d, *x))
}
