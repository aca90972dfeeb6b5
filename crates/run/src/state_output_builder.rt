// From use_cases/state_output_builder.rs: a frame, which is the fields of `StateOutput` one after another.
ghost use Rattle.std.specs.Prelude.{◌≡◌, ◌+◌, ◌-◌, ◌*◌, ◌^◌, ◌≤◌, length, drop};
ghost use Rattle.vectors.specs.Grid.{points_of, spacing_of};
ghost use Rattle.vectors.specs.Memory.{part, put};
ghost use Rattle.vectors.specs.Stencil.{diff_of};
ghost use Rattle.physics.specs.State.{state_in};
ghost use Rattle.run.specs.Frames.{samples_of, frame_size_of, frame_of};
ghost use Rattle.run.specs.FrameWriting.{every_of, Sampling, vector_samples, fields_of, constraints_of, energy_of, output_of, GradientRoom, FrameRoom};
ghost use Rattle.run.specs.FramePlaces.{place_of};
ghost use Rattle.run.specs.InputsLaws.{Accepted};
ghost use Rattle.run.specs.WriteLaws.{Wrote};
ghost use Rattle.run.specs.Written.{Room, Written};

use crate::settings::Settings;
use crate::writer::Writer;
use physics::state::total_energy;
use vectors::diff::diff;
use vectors::grid::length_at_discretization;

// The vectors of a state in the order in which they stand in its memory.
#[derive(Clone, Copy)]
enum Vector {
    Field,
    ConjMomentum,
    AlternateMass,
    EnergyDensity,
    Mass,
    RadialFactor,
    Lapse,
    CharSpeed,
}

// A state whose vectors have n numbers each, and what is sampled of each: every step-th number from the first on, count of them.
#[derive(Clone, Copy)]
struct Sampled<'a> {
    state: &'a [f64],
    n: usize,
    step: usize,
    count: usize,
    ghost inside: { Sampling n step count },
    ghost whole: { 8 * n ≤ length state.now },
}

// The numbers of a frame; 0 for a dx level above 16.
pub fn frame_size(s: Settings) -> usize
    ensures { result ≡ frame_size_of s }
{
    if 16 < s.dx_level {
        return 0;
    }
    2 + 9 * sample_count(s.dx_level)
}

// How many samples a vector has: 2^dx_level + 1, none above level 16.
fn sample_count(dx_level: u32) -> usize
    ensures { result ≡ samples_of dx_level }
{
    if 16 < dx_level {
        return 0;
    }
    (1usize << dx_level) + 1
}

// Writes the frame of a state from number `at` of frame memory on. The radial gradient is left in work memory. Memories and places stay
// parameters, here and below: a struct of them would be made for one call and taken apart in it.
pub(crate) fn write_frame(
    s: Settings,
    time: f64,
    state: &[f64],
    work: &mut [f64],
    frames: &mut [f64],
    at: usize,
)
    requires { FrameRoom s (length state.now) (length work.old) (length frames.old) at }
    ensures { (frames.new ≡ put at (frame_of s (state_in (points_of s.level) time state.now)) frames.old)
        × (drop (40 * points_of s.level) work.new ≡ drop (40 * points_of s.level) work.old)
        × (length work.new ≡ length work.old) }
{
    let sampled = Sampled::new(s, state);
    let n = sampled.n;
    let from = 17 * n;
    let end = from + n;
    compute_radial_gradient(s.level, n, state, work, from);
    let mut w = Writer { out: frames, at };
    sampled.write_output(time, &work[from..end], &mut w);
}

// The radial gradient of the field, into the n numbers of work memory from `from` on.
fn compute_radial_gradient(level: u32, n: usize, state: &[f64], work: &mut [f64], from: usize)
    requires { GradientRoom level n (length state.now) (length work.old) from }
    ensures { Wrote from (diff_of (spacing_of level) (part (0 * n) n state.now)) work.old work.new }
{
    let end = from + n;
    let _ = diff(level, &state[0..n], &mut work[from..end]);
}

impl<'a> Sampled<'a> {
    // A state of these settings.
    fn new(s: Settings, state: &'a [f64]) -> Sampled<'a>
        requires sound { Accepted s }
        requires whole { 8 * points_of s.level ≤ length state.now }
        ensures state { result.state.now ≡ state.now }
        ensures points { result.n ≡ points_of s.level }
        ensures spaced { result.step ≡ 2 ^ (s.level - s.dx_level) }
        ensures samples { result.count ≡ samples_of s.dx_level }
    {
        Sampled {
            state,
            n: length_at_discretization(s.level),
            step: 1 << (s.level - s.dx_level),
            count: sample_count(s.dx_level),
        }
    }

    // Writes a frame whose radial gradient is at hand.
    fn write_output(self, time: f64, radial_gradient: &[f64], frames: &mut Writer<'_, f64>)
        requires { (length radial_gradient.now ≡ self.n) × (Room (2 + 9 * self.count) frames.old) }
        ensures { let s = self.entry in Written (2 + 9 * s.count) (output_of s.n s.step s.count s.state.now time radial_gradient.now) frames.old frames.new }
    {
        frames.push(time);
        self.write_fields(radial_gradient, frames);
        self.write_constraints(frames);
        self.write_energy(frames);
    }

    // Writes the fields: the scalar field, its radial gradient and its conjugate momentum.
    fn write_fields(self, radial_gradient: &[f64], frames: &mut Writer<'_, f64>)
        requires { (length radial_gradient.now ≡ self.n) × (Room (3 * self.count) frames.old) }
        ensures { let s = self.entry in Written (3 * s.count) (fields_of s.n s.step s.count s.state.now radial_gradient.now) frames.old frames.new }
    {
        self.write_vector(Vector::Field, frames);
        self.reduce_spatial_resolution(radial_gradient, frames);
        self.write_vector(Vector::ConjMomentum, frames);
    }

    // Writes the constraint variables.
    fn write_constraints(self, frames: &mut Writer<'_, f64>)
        requires { Room (5 * self.count) frames.old }
        ensures { let s = self.entry in Written (5 * s.count) (constraints_of s.n s.step s.count s.state.now) frames.old frames.new }
    {
        self.write_vector(Vector::Mass, frames);
        self.write_vector(Vector::RadialFactor, frames);
        self.write_vector(Vector::Lapse, frames);
        self.write_vector(Vector::CharSpeed, frames);
        self.write_vector(Vector::EnergyDensity, frames);
    }

    // Writes the total energy and the alternate mass.
    fn write_energy(self, frames: &mut Writer<'_, f64>)
        requires { Room (1 + self.count) frames.old }
        ensures { let s = self.entry in Written (1 + s.count) (energy_of s.n s.step s.count s.state.now) frames.old frames.new }
    {
        frames.push(total_energy(self.vector(Vector::Mass)));
        self.write_vector(Vector::AlternateMass, frames);
    }

    // Writes the samples of a vector of the state.
    fn write_vector(self, vector: Vector, frames: &mut Writer<'_, f64>)
        requires { Room self.count frames.old }
        ensures { let s = self.entry in Written s.count (vector_samples s.n s.step s.count s.state.now (place_of vector)) frames.old frames.new }
    {
        self.reduce_spatial_resolution(self.vector(vector), frames);
    }

    fn vector(self, vector: Vector) -> &'a [f64]
        ensures { let s = self.entry in (result.now ≡ part (place_of vector * s.n) s.n s.state.now) × (length result.now ≡ s.n) }
    {
        let from = vector as usize * self.n;
        &self.state[from..from + self.n]
    }

    // Writes the samples of a vector.
    fn reduce_spatial_resolution(self, vector: &[f64], frames: &mut Writer<'_, f64>)
        requires { (length vector.now ≡ self.n) × (Room self.count frames.old) }
        ensures { let s = self.entry in Written s.count (every_of s.step s.count vector.now) frames.old frames.new }
    {
        let end = frames.at + self.count;
        for (j, sample) in frames.out[frames.at..end].iter_mut().enumerate() {
            *sample = vector[j * self.step];
        }
        frames.at = end;
    }
}
