// The floats of a record's slice that stand for a whole number or for a switch.
ghost use Rattle.std.specs.Prelude.{◌≡◌};
ghost use Rattle.capi.specs.Numbers.{whole_in, switch_in};
ghost use Rattle.capi.specs.NumbersLaws.{in_range};

// Whether x without its fraction is a whole number of 32 bits.
fn in_range(x: f64) -> bool
    ensures { result ≡ in_range x }
{
    (x > -1.0) & (x < 4294967296.0)
}

// The whole number of 32 bits that x equals. It is tested as a float before it is narrowed.
pub(crate) fn whole_in(x: f64) -> Option<u32>
    ensures { result ≡ whole_in x }
{
    if !in_range(x) {
        return None;
    }
    let n = std::num::truncating_f64_to_u64(x);
    (x == n as f64).then_some(n as u32)
}

// The switch that x equals: 0 or 1.
#[tactic(auto, using(std::proofs::lemmas::Float::one_f64_is), unfolding(crate::specs::Numbers::switch_in))]
pub(crate) fn switch_in(x: f64) -> Option<bool>
    ensures { result ≡ switch_in x }
{
    if x == 0.0 {
        Some(false)
    } else if x == 1.0 {
        Some(true)
    } else {
        None
    }
}
