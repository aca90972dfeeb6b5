// The constants of constants.rs that the core uses.

// The radial factor below which steps are slowed down.
pub const BH_RADIAL_FACTOR_TRACKING: f64 = 0.1;

// The radial factor at or below which a black hole has formed.
pub const BH_RADIAL_FACTOR_THRESHOLD: f64 = 0.01;

// Time step over spacing.
pub const COURANT_NUMBER: f64 = 0.95;

// What the time step is multiplied by where steps are slowed down.
pub const BH_SLOWDOWN_FACTOR: f64 = 0.25;

// How near to a frame's time a state counts as being there.
pub const EPS: f64 = 1e-12;

// The factor of the dissipation.
pub const DISSIPATION_FACTOR: f64 = 0.01;

// The steepness of the initial wave profile.
pub const INITIAL_WAVE_STEEPNESS: f64 = 64.0;
