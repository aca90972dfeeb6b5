// From domain/state.rs: `total_energy`. With it what a run does with a state that a memory holds: look for a NaN, and store it.
ghost use Rattle.std.specs.Prelude.{◌≡◌, ◌*◌, ◌≤◌, length, take};
ghost use Rattle.vectors.specs.Answer.{number_of, left_by};
ghost use Rattle.vectors.specs.Fault.{fault_of};
ghost use Rattle.vectors.specs.Grid.{points_of};
ghost use Rattle.vectors.specs.Memory.{put};
ghost use Rattle.physics.specs.Nan.{any_nan};
ghost use Rattle.physics.specs.Store.{both_hold, stored_of};
ghost use Rattle.physics.specs.TotalEnergy.{last_of};

use crate::slots;
use crate::slots::copy_vector;
use vectors::answer::{Refusal, checked};
use vectors::grid::length_at_discretization;

// The total energy: the last number of the mass, NaN where there is none.
pub fn total_energy(mass: &[f64]) -> f64
    ensures { result ≡ last_of mass.now }
{
    mass.last().copied().unwrap_or(f64::NAN)
}

// Whether the time or a number of the vectors is a NaN, with no branch on the way.
#[tactic(auto, unfolding(crate::specs::Nan::any_nan, crate::specs::Nan::holds_nan))]
pub fn has_nan(time: f64, vectors: &[f64]) -> bool
    ensures { result ≡ any_nan time vectors.now }
{
    let mut found = time.is_nan();
    for x in vectors {
        found |= x.is_nan();
    }
    found
}

// How many numbers of state memory a level wants.
#[tactic(auto, using(vectors::specs::GridLaws::points_bound))]
pub fn state_size(level: u32) -> usize
    ensures { result ≡ 8 * points_of level }
{
    8 * length_at_discretization(level)
}

// How many numbers of work memory a level wants.
#[tactic(auto, using(vectors::specs::GridLaws::points_bound))]
pub fn work_size(level: u32) -> usize
    ensures { result ≡ 40 * points_of level }
{
    40 * length_at_discretization(level)
}

// Stores a state that is laid out at the front of `from`.
#[tactic(auto, using(vectors::specs::GridLaws::points_bound))]
pub fn store(level: u32, from: &[f64], state: &mut [f64]) -> Result<(), Refusal>
    ensures refused { number_of result ≡ fault_of level (both_hold level (length from.now) (length state.old)) }
    ensures left { state.new ≡ left_by result (stored_of (points_of level) from.now state.old) state.old }
{
    let count = slots::VECTORS * length_at_discretization(level);
    checked(level, count <= from.len() && count <= state.len())?;
    copy_vector(&from[..count], 0, state);
    Ok(())
}
