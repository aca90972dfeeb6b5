// What a call answers that may refuse to do its work.
ghost use Rattle.std.specs.Prelude.{◌≡◌, ◌+◌, leb};
ghost use Rattle.vectors.specs.Answer.{refusal_number, number_of};
ghost use Rattle.vectors.specs.Fault.{fault_of, all_fit};

use crate::grid::length_at_discretization;

// Why a call is refused. `refusal_number` in specs/Answer.antt gives each the number that document 01 has for it.
#[derive(Clone, Copy, Debug, PartialEq, Eq)]
pub enum Refusal {
    Level,
    Length,
}

impl From<Refusal> for u32 {
    ghost from_gives = { λ refusal number. number ≡ refusal_number refusal };

    fn from(refusal: Refusal) -> u32 {
        match refusal {
            Refusal::Level => 5,
            Refusal::Length => 11,
        }
    }
}

// Whether n numbers stand from place at on in a memory of len.
pub fn fits(len: usize, at: usize, n: usize) -> bool
    ensures { result ≡ leb (at + n) len }
{
    n <= len && at <= len - n
}

// The answer to a call at this level, by whether its memories have the right lengths.
#[tactic(auto, unfolding(crate::specs::Fault::fault_of))]
pub fn checked(level: u32, fits: bool) -> Result<(), Refusal>
    ensures { number_of result ≡ fault_of level fits }
{
    match level {
        5..=16 if fits => Ok(()),
        5..=16 => Err(Refusal::Length),
        _ => Err(Refusal::Level),
    }
}

// The answer to a call on memories of these lengths, with a number for each point.
pub fn checked_lengths(level: u32, lengths: &[usize]) -> Result<(), Refusal>
    ensures { number_of result ≡ fault_of level (all_fit level lengths.now) }
{
    let n = length_at_discretization(level);
    checked(level, lengths.iter().all(|len| *len == n))
}
