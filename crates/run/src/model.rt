// What a run asks of the physics and of the clock, by the names of specs/Model.antt.
ghost use Rattle.std.specs.Prelude.{◌≡◌, ◌≤◌, length, drop};
ghost use Rattle.std.specs.Prelude.{None};
ghost use Rattle.std.specs.Float.Ieee.{lt};
ghost use Rattle.vectors.specs.Memory.{part, put};
ghost use Rattle.run.specs.Model.{fault_at, cell_count, work_count, state_in, first_state, step_of, holds_nan, mass_at};
ghost use Rattle.run.specs.Answers.{next_in, state_now, ClockOf, Lent};

use crate::adaptive_time_step::{TimeStep, next};
use crate::live::Live;
use crate::settings::Settings;
use physics::constraints::black_hole_mass;
use physics::integration::rk4_step;
use physics::state::store;
use physics::state_builder::build_initial_state;
use vectors::grid::length_at_discretization;

// Whether this time is above the max time. Settings and time stay two parameters, as in adaptive_time_step.rt.
pub(crate) fn late(s: Settings, time: f64) -> bool
    ensures { result ≡ lt s.max_time time }
{
    time > s.max_time
}

impl Live<'_> {
    // The mass of the state, where a black hole has formed.
    pub(crate) fn mass(&self) -> Option<f64>
        ensures { result ≡ mass_at (state_now self.now) }
    {
        let n = length_at_discretization(self.run.settings.level);
        let mass = 4 * n;
        let radial = 5 * n;
        let end = 6 * n;
        black_hole_mass(&self.state[radial..end], &self.state[mass..radial])
    }

    // The clock of the state.
    pub(crate) fn clock(&self) -> TimeStep
        ensures { ClockOf self.now.run.settings (state_now self.now) result }
    {
        let s = self.run.settings;
        let n = length_at_discretization(s.level);
        let radial = 5 * n;
        let end = 6 * n;
        next(s, self.run.time, &self.state[radial..end])
    }
}

// This and the next three take slices: as a method of `Live`, `step` asks nothing, but its one clause is a record of seven facts, most of
// them that a part of the run is as it was, in place of three clauses.
// The initial state, made in work memory: its time.
pub(crate) fn start_state(s: Settings, work: &mut [f64]) -> f64
    requires s_value { fault_at s ≡ None }
    requires s_in_bounds { work_count s ≤ length work.old }
    ensures work_after { next_in s result work.new ≡ first_state s }
    ensures work_unchanged { drop (work_count s) work.new ≡ drop (work_count s) work.old }
{
    let _ = build_initial_state(s.level, s.amplitude, work);
    0.0
}

// The next state, made in work memory by a step of delta: its time.
pub(crate) fn step(s: Settings, time: f64, delta: f64, state: &[f64], work: &mut [f64]) -> f64
    requires { Lent s (length state.now) (length work.old) }
    ensures work_after { next_in s result work.new ≡ step_of s delta (state_in s time state.now) }
    ensures work_unchanged { drop (work_count s) work.new ≡ drop (work_count s) work.old }
{
    let _ = rk4_step(s.level, time, delta, state, work);
    time + delta
}

// Whether the state that was made in work memory holds a NaN.
pub(crate) fn has_nan(s: Settings, time: f64, work: &[f64]) -> bool
    requires { work_count s ≤ length work.now }
    ensures { result ≡ holds_nan (next_in s time work.now) }
{
    let n = length_at_discretization(s.level);
    let at = 8 * n;
    let end = 16 * n;
    physics::state::has_nan(time, &work[at..end])
}

// Stores the state that was made in work memory.
pub(crate) fn store_next(s: Settings, work: &[f64], state: &mut [f64])
    requires { Lent s (length state.old) (length work.now) }
    ensures { state.new ≡ put 0 (part (cell_count s) (cell_count s) work.now) state.old }
{
    let n = length_at_discretization(s.level);
    let at = 8 * n;
    let end = 16 * n;
    let _ = store(s.level, &work[at..end], state);
}
