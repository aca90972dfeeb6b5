// From domain/constraints.rs: `black_hole_mass`.
ghost use Rattle.std.specs.Prelude.{◌≡◌};
ghost use Rattle.physics.specs.BlackHole.{black_hole_mass_of};

use vectors::constants::BH_RADIAL_FACTOR_THRESHOLD;
use vectors::field_vector::position_at_or_below;

// The mass at the first point whose radial factor is at or below the threshold, where there is one; NaN where that point has no mass.
pub fn black_hole_mass(radial_factor: &[f64], mass: &[f64]) -> Option<f64>
    ensures { result ≡ black_hole_mass_of radial_factor.now mass.now }
{
    let bh_radius_index = position_at_or_below(radial_factor, BH_RADIAL_FACTOR_THRESHOLD)?;
    Some(mass.get(bh_radius_index).copied().unwrap_or(f64::NAN))
}
