// The arguments of the cases, by the generator of oracle/arguments.rs.
ghost use Rattle.std.specs.Prelude.{◌≡◌, length};
ghost use Rattle.cases.specs.Arguments.{next_of, pattern_of, after_of, unit_of, spike_of, infinite_of, missing_of, entry_of, vector_of, argument_of, list_of};

use crate::digest::mixed;
use vectors::bits::of_bits;

#[tactic(auto, unfolding(crate::specs::Arguments::next_of))]
fn next(s: u64) -> u64
    ensures { result ≡ next_of s }
{
    mixed(s, 1)
}

// 64 bits of state s and the state after it. A state is below 2^40, so the remainders change nothing.
#[tactic(auto, unfolding(crate::specs::Arguments::pattern_of, crate::specs::Arguments::half_of))]
fn pattern(s: u64) -> u64
    ensures { result ≡ pattern_of s }
{
    s / 256 % 4294967296 * 4294967296 + next(s) / 256 % 4294967296
}

// The state after the two that `pattern` uses.
#[tactic(auto, unfolding(crate::specs::Arguments::after_of))]
pub fn after(s: u64) -> u64
    ensures { result ≡ after_of s }
{
    next(next(s))
}

// A number from -1 up to 1, from the 52 low bits of the pattern.
#[tactic(auto, unfolding(crate::specs::Arguments::unit_of, crate::proofs::arguments::Floats::of_constants))]
fn unit(s: u64) -> f64
    ensures { result ≡ unit_of s }
{
    of_bits(0x3FF0000000000000 + pattern(s) % 4503599627370496) * 2.0 - 3.0
}

// u, with +infinity at point kind - 16 of every 4096. This and the next two get i and u side by side: a struct of both would be
// made once and read once, and be no plainer.
#[tactic(auto, unfolding(crate::specs::Arguments::spike_of, crate::proofs::arguments::Floats::of_constants))]
fn spike(kind: u32, i: usize, u: f64) -> f64
    ensures { result ≡ spike_of kind i u }
{
    if i % 4096 + 16 == kind as usize {
        f64::INFINITY
    } else {
        u
    }
}

#[tactic(auto, unfolding(crate::specs::Arguments::infinite_of, crate::proofs::arguments::Floats::of_constants))]
fn infinite(i: usize, u: f64) -> f64
    ensures { result ≡ infinite_of i u }
{
    if i % 11 == 5 { u / 0.0 } else { u }
}

#[tactic(auto, unfolding(crate::specs::Arguments::missing_of, crate::proofs::arguments::Floats::of_constants))]
fn missing(i: usize, u: f64) -> f64
    ensures { result ≡ missing_of i u }
{
    if i % 13 == 6 { f64::NAN } else { u }
}

// Entry i, at the point r, of a vector of a kind, with the generator in state s.
#[tactic(auto, unfolding(crate::specs::Arguments::entry_of, crate::specs::Arguments::entries_of, crate::proofs::arguments::Floats::of_constants))]
fn entry(kind: u32, r: f64, i: usize, s: u64) -> f64
    ensures { result ≡ entry_of kind r i s }
{
    let u = unit(s);
    match kind {
        0 => r * (1.0 - r) * (r - 0.3),
        1 => u,
        2 => of_bits(pattern(s)),
        3 => 1e300 * u,
        4 => 1.7e308 * u,
        5 => 1e-310 * u,
        6 => -0.0,
        7 => 0.0 * u,
        8 => infinite(i, u),
        9 => missing(i, u),
        10 => 1.0 - r,
        _ => spike(kind, i, u),
    }
}

// The entries of a vector of a kind. It takes every number for a kind, from 11 on that of a spike: an enum of kinds would ask more of callers.
#[tactic(auto, using(crate::proofs::arguments::States::first, crate::proofs::arguments::States::next, vectors::specs::MemoryLaws::grown_none, vectors::specs::MemoryLaws::grown_step))]
pub fn vector(level: u32, kind: u32, values: &mut [f64])
    ensures { values.new ≡ vector_of level kind (length values.old) }
{
    let mut s = mixed(mixed(17, level as u64), kind as u64);
    for (i, x) in values.iter_mut().enumerate() {
        *x = entry(kind, vectors::grid::point(level, i), i, s);
        s = after(s);
    }
}

// The ranges of `argument` and `list` by their numbers: any pattern, -710 to 711, near zero, 0 to pi/2, -10 to 10, -1 to 1.
#[derive(Clone, Copy)]
pub enum Range {
    Patterns,
    Exp,
    NearZero,
    Quarter,
    Ten,
    Unit,
}

// A number of a range. It takes every number for a range, from 5 on that of Range::Unit, here and in `list`: the enum would ask more of callers.
#[tactic(auto, unfolding(crate::specs::Arguments::argument_of, crate::specs::Arguments::ranges_of, crate::proofs::arguments::Floats::of_constants))]
pub fn argument(range: u32, s: u64) -> f64
    ensures { result ≡ argument_of range s }
{
    let u = unit(s);
    match range {
        0 => of_bits(pattern(s)),
        1 => 0.5 + 710.5 * u,
        2 => 0.02 * u,
        3 => 0.7853981633974483 * (1.0 + u),
        4 => 10.0 * u,
        _ => u,
    }
}

// Numbers of a range, by the generator's states from seed on.
#[tactic(auto, using(crate::proofs::arguments::States::first, crate::proofs::arguments::States::next, vectors::specs::MemoryLaws::grown_none, vectors::specs::MemoryLaws::grown_step))]
pub fn list(range: u32, seed: u64, values: &mut [f64])
    ensures { values.new ≡ list_of range seed (length values.old) }
{
    let mut s = seed;
    for x in values.iter_mut() {
        *x = argument(range, s);
        s = after(s);
    }
}
