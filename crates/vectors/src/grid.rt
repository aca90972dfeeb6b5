// The grid of grid.rs, from 0 to 1 inclusive, by its level.
ghost use Rattle.std.specs.Prelude.{◌≡◌};
ghost use Rattle.vectors.specs.Grid.{points_of, spacing_of, point_of};

use crate::bits::power_of_two;

// The number of grid points: 2^level + 1 at levels 5 to 16, 0 at any other.
#[tactic(auto, unfolding(crate::specs::Grid::points_of))]
pub fn length_at_discretization(level: u32) -> usize
    ensures { result ≡ points_of level }
{
    match level {
        5..=16 => (1 << level) + 1,
        _ => 0,
    }
}

// The grid spacing, 2^-level at levels 5 to 16; NaN at any other.
#[tactic(auto, using(crate::proofs::Floats::nan_literal), unfolding(crate::specs::Grid::spacing_of))]
pub fn delta(level: u32) -> f64
    ensures { result ≡ spacing_of level }
{
    match level {
        5..=16 => power_of_two(1024 - u64::from(level)),
        _ => f64::NAN,
    }
}

// The coordinate of grid point i; NaN where the level has no point i.
#[tactic(auto, using(crate::proofs::Floats::nan_literal), unfolding(crate::specs::Grid::point_of))]
pub fn point(level: u32, i: usize) -> f64
    ensures { result ≡ point_of level i }
{
    if i < length_at_discretization(level) {
        return (i as f64) * delta(level);
    }
    f64::NAN
}
