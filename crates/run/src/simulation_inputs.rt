// From domain/simulation_inputs.rs: `validate`, with document 01's upper end of the level.
ghost use Rattle.std.specs.Prelude.{◌≡◌};
ghost use Rattle.run.specs.Inputs.{fault_at};
ghost use Rattle.run.specs.Refusal.{refusal_of};

use crate::refusal::Refusal;
use crate::settings::Settings;
use vectors::grid::length_at_discretization;

// The first fault of the settings: the level, then the interval, then the dx level.
pub fn validate(s: Settings) -> Result<(), Refusal>
    ensures { refusal_of result ≡ fault_at s }
{
    if s.level < 5 {
        return Err(Refusal::Level);
    }
    if 16 < s.level {
        return Err(Refusal::Level);
    }
    let num_points = length_at_discretization(s.level) as f64;
    if s.interval * num_points < 1.0 {
        return Err(Refusal::Interval);
    }
    if s.level < s.dx_level {
        return Err(Refusal::DxLevel);
    }
    Ok(())
}
