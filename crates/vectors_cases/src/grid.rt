// The constants, the grid, tan along the grid, and what stands outside it.
use cases::digest::with;
use std::io;
use vectors::bits::bits_of;
use vectors::constants::{
    BH_RADIAL_FACTOR_THRESHOLD, BH_RADIAL_FACTOR_TRACKING, BH_SLOWDOWN_FACTOR, COURANT_NUMBER,
    DISSIPATION_FACTOR, EPS, INITIAL_WAVE_STEEPNESS,
};
use vectors::grid::{delta, length_at_discretization, point};
use vectors::tan::tan;

const CONSTANTS: [(&str, f64); 7] = [
    ("BH_RADIAL_FACTOR_TRACKING", BH_RADIAL_FACTOR_TRACKING),
    ("BH_RADIAL_FACTOR_THRESHOLD", BH_RADIAL_FACTOR_THRESHOLD),
    ("COURANT_NUMBER", COURANT_NUMBER),
    ("BH_SLOWDOWN_FACTOR", BH_SLOWDOWN_FACTOR),
    ("EPS", EPS),
    ("DISSIPATION_FACTOR", DISSIPATION_FACTOR),
    ("INITIAL_WAVE_STEEPNESS", INITIAL_WAVE_STEEPNESS),
];

// pi/2, as rounded.
const QUARTER: f64 = f64::from_bits(0x3FF921FB54442D18);

pub fn constants(rt: &impl Print) -> io::Result<()> {
    for (name, value) in CONSTANTS {
        println!(rt; "constant {name} {:016x}", bits_of(value))?;
    }
    Ok(())
}

pub fn levels(rt: &impl Print) -> io::Result<()> {
    for level in 5..=16 {
        println!(rt;
            "grid level {level} length {}",
            length_at_discretization(level)
        )?;
        println!(rt; "grid level {level} delta {:016x}", bits_of(delta(level)))?;
        println!(rt; "grid level {level} points {}", along(level, |r| r))?;
        println!(rt;
            "grid level {level} tangents {}",
            along(level, |r| tan(QUARTER * r))
        )?;
    }
    Ok(())
}

pub fn outside(rt: &impl Print) -> io::Result<()> {
    for level in [4, 17, 261] {
        println!(rt;
            "outside level {level} length {}",
            length_at_discretization(level)
        )?;
        println!(rt;
            "outside level {level} delta {:016x}",
            bits_of(delta(level))
        )?;
        println!(rt;
            "outside level {level} point {:016x}",
            bits_of(point(level, 0))
        )?;
    }
    Ok(())
}

// The point after the last.
pub fn beyond(rt: &impl Print) -> io::Result<()> {
    for level in [5, 16] {
        let n = length_at_discretization(level);
        println!(rt;
            "beyond level {level} point {:016x}",
            bits_of(point(level, n))
        )?;
    }
    Ok(())
}

// The digest of a function along the points. It asks that the function may be called, as the two of functions.rt.
fn along<F: Fn(f64) -> f64>(level: u32, f: F) -> u64
    requires { F.IsAlwaysCallable f }
{
    let mut d = 1;
    for i in 0..length_at_discretization(level) {
        d = with(d, f(point(level, i)));
    }
    d
}
