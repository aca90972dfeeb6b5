// The memories of the runs, how much of them a level uses, and the clock's base.
ghost use Rattle.std.specs.Prelude.{◌≤◌};

use physics::integration::rk4_step;
use physics::state::store;
use physics::state_builder::build_initial_state;
use vectors::constants::COURANT_NUMBER;
use vectors::grid::{delta, length_at_discretization};

// A state and work memory of level 13, the highest that is run.
pub const STATE: usize = 65544;

pub const WORK: usize = 327720;

#[derive(Drop)]
pub struct Memories {
    pub state: [f64; STATE],
    pub work: [f64; WORK],
}

impl Memories {
    // The part of state memory that a state of the level takes.
    pub fn state(&mut self, level: u32) -> &mut [f64] {
        &mut self.state[..8 * points(level)]
    }

    // The state that a build or a step made in work memory.
    pub fn made(&self, level: u32) -> &[f64] {
        let n = points(level);
        &self.work[8 * n..16 * n]
    }

    pub fn build(&mut self, level: u32, amplitude: f64) {
        let _ = build_initial_state(level, amplitude, &mut self.work[..40 * points(level)]);
    }

    // The made state to state memory.
    pub fn store(&mut self, level: u32) {
        let n = points(level);
        let Memories { state, work } = self;
        let state = &mut state[..];
        let _ = store(level, &work[8 * n..16 * n], &mut state[..8 * n]);
    }

    // A step from the state in state memory; the time after it.
    pub fn step(&mut self, level: u32, time: f64, delta: f64) -> f64 {
        let n = points(level);
        let Memories { state, work } = self;
        let work = &mut work[..];
        rk4_step(level, time, delta, &state[..8 * n], &mut work[..40 * n]).unwrap_or(f64::NAN)
    }
}

// The points of a level, up to level 13.
fn points(level: u32) -> usize
    ensures { result ≤ 8193 }
{
    length_at_discretization(level).min(8193)
}

// The clock's base: h × 0.95.
pub fn base(level: u32) -> f64 {
    delta(level) * COURANT_NUMBER
}
