// The black hole mass and the total energy of lent vectors.
use crate::lines::{ends, formed};
use cases::arguments::vector;
use physics::constraints::black_hole_mass;
use physics::state::total_energy;
use std::io;
use vectors::bits::bits_of;
use vectors::grid::length_at_discretization;

pub fn levels(rt: &impl Print) -> io::Result<()> {
    for level in 5..=8 {
        kinds(rt, level)?;
    }
    Ok(())
}

// The radial factor is a vector of this kind, the mass one of the kind after it.
fn kinds(rt: &impl Print, level: u32) -> io::Result<()> {
    let n = length_at_discretization(level).min(257);
    let mut radial_factor = [0.0; 257];
    let mut mass = [0.0; 257];
    for kind in 0..11 {
        vector(level, kind, &mut radial_factor);
        vector(level, (kind + 1) % 11, &mut mass);
        print!(rt; "diagnostics level {level} vector {kind}")?;
        ends(rt, &radial_factor[..n], &mass[..n])?;
        println!(rt)?;
    }
    Ok(())
}

// A mass that has no number where one is asked for.
pub fn short(rt: &impl Print) -> io::Result<()> {
    print!(rt; "short")?;
    formed(rt, black_hole_mass(&[1.0, 1.0], &[0.5]))?;
    print!(rt; "\nshort")?;
    formed(rt, black_hole_mass(&[1.0, 0.0], &[0.5]))?;
    println!(rt; "\nshort energy {:016x}", bits_of(total_energy(&[])))
}
