// `build_initial_state` of state_builder.rs, in the slots of slots.rt.
ghost use Rattle.std.specs.Prelude.{◌≡◌, ◌*◌, ◌≤◌, length};
ghost use Rattle.vectors.specs.Answer.{number_of};
ghost use Rattle.vectors.specs.Fault.{fault_of};
ghost use Rattle.vectors.specs.Grid.{points_of};
ghost use Rattle.physics.specs.InitialState.{exponent_at, initial_state_of};
ghost use Rattle.physics.specs.Passed.{Passed};
ghost use Rattle.physics.specs.Passes.{Room, grids};
ghost use Rattle.physics.specs.SlotNumbers.{alternate_mass_slot, mass_slot};
ghost use Rattle.physics.specs.Slots.{upd, Became};
ghost use Rattle.physics.specs.InitialPasses.{exponents, variables, initials};
ghost use Rattle.physics.specs.Built.{room_to_build};
ghost use Rattle.physics.specs.WorkAfter.{WorkAfter};

use crate::slots;
use crate::slots::{Slots, copy_within};
use vectors::answer::{Refusal, checked};
use vectors::constants::INITIAL_WAVE_STEEPNESS;
use vectors::diff::scale;
use vectors::exp::exp_all;
use vectors::field_vector::square;
use vectors::grid::length_at_discretization;
use vectors::tan::tan;

// Pi, as std::f64::consts has it.
const PI: f64 = 3.14159265358979323846264338327950288;

// Builds the initial state with a Gaussian wave profile: its vectors are left in numbers 8n to 16n of work memory.
#[tactic(auto, using(vectors::specs::GridLaws::points_bound))]
pub fn build_initial_state(level: u32, amplitude: f64, work: &mut [f64]) -> Result<(), Refusal>
    ensures refused { number_of result ≡ fault_of level (room_to_build level (length work.old)) }
    ensures made { WorkAfter (number_of result) level (initial_state_of level amplitude) work.old work.new }
{
    checked_work(level, work.len())?;
    let n = length_at_discretization(level);
    let start = slots::START * n;
    let end = slots::END * n;
    build_state(level, n, amplitude, &mut work[start..end]);
    Ok(())
}

#[tactic(auto, using(vectors::specs::GridLaws::points_bound))]
fn checked_work(level: u32, work: usize) -> Result<(), Refusal>
    ensures { number_of result ≡ fault_of level (room_to_build level work) }
{
    let n = length_at_discretization(level);
    checked(level, slots::WORK * n <= work)
}

// The initial state, to the first slots.
fn build_state(level: u32, n: usize, amplitude: f64, w: &mut [f64])
    requires { (n ≡ points_of level) × Room n (length w.old) }
    ensures { Became n (λ S. initials level n amplitude (grids level n S)) w.old w.new }
{
    let mut s = Slots { level, n, w };
    s.fill_grid();
    s.initial_variables(amplitude);
    s.compute_all_constraints();
    s.begin_alternate_mass();
}

impl Slots<'_> {
    // A field of zeros, and the wave profile as momentum.
    fn initial_variables(&mut self, amplitude: f64)
        ensures { Passed (λ level n. variables n amplitude) self.old self.new }
    {
        let momentum = slots::MOMENTUM * self.n;
        let end = slots::ALTERNATE_MASS * self.n;
        self.initial_exponents();
        exp_all(&mut self.w[momentum..end]);
        scale(amplitude, &mut self.w[momentum..end]);
    }

    // A field of zeros; where the momentum goes, the exponents of the wave profile. By an index, as the loops of constraint_computer.rt.
    fn initial_exponents(&mut self)
        ensures { Passed (λ level. exponents) self.old self.new }
    {
        let n = self.n;
        let w = &mut *self.w;
        let field = slots::FIELD * n;
        let momentum = slots::MOMENTUM * n;
        let points = slots::POINTS * n;
        for i in 0..n {
            let exponent = exponent_at(w[points + i]);
            w[field + i] = 0.0;
            w[momentum + i] = exponent;
        }
    }

    // The alternate mass begins as the mass.
    fn begin_alternate_mass(&mut self)
        ensures { Passed (λ level n S. upd alternate_mass_slot (S mass_slot) S) self.old self.new }
    {
        let mass = slots::MASS * self.n;
        let alternate_mass = slots::ALTERNATE_MASS * self.n;
        copy_within(mass, alternate_mass, self.n, self.w);
    }
}

fn exponent_at(r: f64) -> f64
    ensures { result ≡ exponent_at r }
{
    -INITIAL_WAVE_STEEPNESS * square(tan(PI / 2.0 * r))
}
