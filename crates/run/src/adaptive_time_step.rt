// From use_cases/adaptive_time_step.rs: the next time step, and whether it lands on a frame boundary.
ghost use Rattle.std.specs.Prelude.{◌≡◌, not, ◌&&◌, ◌||◌};
ghost use Rattle.std.specs.Float.Ieee.{lt, le};
ghost use Rattle.vectors.specs.Constants.{eps};
ghost use Rattle.run.specs.Clock.{base_step_of, time_to_next_of, is_frame_step, delta_of};

use crate::settings::Settings;
use vectors::constants::{BH_RADIAL_FACTOR_TRACKING, BH_SLOWDOWN_FACTOR, COURANT_NUMBER, EPS};
use vectors::field_vector::min;
use vectors::grid::delta;

// Adaptive time step with frame boundary detection: its size, and whether it lands on a frame boundary. No enum of the two: each use asks for the
// size alone or for the flag alone.
#[derive(Clone, Copy)]
pub struct TimeStep {
    pub delta: f64,
    pub framed: bool,
}

// The next time step, which lands on a frame boundary if one is within the base time step. Settings and time stay two parameters, as the
// definitions have them: a struct of both would be made for this one call.
#[tactic(auto, unfolding(crate::specs::Clock::is_frame_step, crate::specs::Clock::delta_of))]
pub fn next(s: Settings, time: f64, radial_factor: &[f64]) -> TimeStep
    ensures { (result.delta ≡ delta_of s time radial_factor.now)
        × (result.framed ≡ is_frame_step s time radial_factor.now) }
{
    let base = base_time_step(s, radial_factor);
    let to_next = time_to_next_frame(s, time);
    let framed = is_framed(s, to_next, base);
    TimeStep {
        delta: if framed { to_next } else { base },
        framed,
    }
}

// Frame boundaries don't matter if the state output is skipped. A state may be at one, but for rounding.
fn is_framed(s: Settings, to_next: f64, base: f64) -> bool
    ensures { result ≡ (not s.skip && not (le to_next eps || lt base to_next)) }
{
    !s.skip && !(to_next <= EPS || to_next > base)
}

// The step where no frame boundary is near: smaller near a black hole.
fn base_time_step(s: Settings, radial_factor: &[f64]) -> f64
    ensures { result ≡ base_step_of s radial_factor.now }
{
    let base = delta(s.level) * COURANT_NUMBER;
    if min(radial_factor) < BH_RADIAL_FACTOR_TRACKING {
        return base * BH_SLOWDOWN_FACTOR;
    }
    base
}

// From this time to the next frame boundary after it.
fn time_to_next_frame(s: Settings, time: f64) -> f64
    ensures { result ≡ time_to_next_of s time }
{
    ((time / s.interval).floor() + 1.0) * s.interval - time
}
