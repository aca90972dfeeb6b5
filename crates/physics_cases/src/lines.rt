// The line of a state.
use cases::digest::digest;
use physics::constraints::black_hole_mass;
use physics::state::{has_nan, total_energy};
use std::io;
use vectors::bits::bits_of;

// The rest of a state's line, after the case. A state is its eight vectors.
pub fn state(rt: &impl Print, time: f64, vectors: &[f64]) -> io::Result<()> {
    let n = vectors.len() / 8;
    print!(rt; " time {:016x} vectors", bits_of(time))?;
    digests(rt, vectors)?;
    ends(rt, &vectors[5 * n..6 * n], &vectors[4 * n..5 * n])?;
    println!(rt;
        " nan {}",
        if has_nan(time, vectors) { "yes" } else { "no" }
    )
}

fn digests(rt: &impl Print, vectors: &[f64]) -> io::Result<()> {
    for vector in vectors.chunks_exact((vectors.len() / 8).max(1)) {
        print!(rt; " {}", digest(vector))?;
    }
    Ok(())
}

// The total energy and the black hole mass.
pub fn ends(rt: &impl Print, radial_factor: &[f64], mass: &[f64]) -> io::Result<()> {
    print!(rt; " energy {:016x}", bits_of(total_energy(mass)))?;
    formed(rt, black_hole_mass(radial_factor, mass))
}

pub fn formed(rt: &impl Print, mass: Option<f64>) -> io::Result<()> {
    match mass {
        Some(m) => print!(rt; " mass {:016x}", bits_of(m)),
        None => print!(rt; " mass none"),
    }
}
