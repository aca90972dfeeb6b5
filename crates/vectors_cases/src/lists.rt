// The minimum of a list, and the first index at or below a bound: of a vector, and of short lists.
use crate::on_vector::Vector;
use std::{fmt, io};
use vectors::bits::{bits_of, of_bits};
use vectors::constants::BH_RADIAL_FACTOR_THRESHOLD;
use vectors::field_vector::{min, position_at_or_below};

// The bounds beside the threshold, as bits. No other table runs beside this one.
#[rattlefmt::skip]
const BOUNDS: [u64; 7] = [
    0x0000000000000000, 0x8000000000000000, 0xBFE0000000000000, 0x0000000000000001,
    0x7FF0000000000000, 0xFFF0000000000000, 0x7FF8000000000000,
];

// Lists, the last with the floats next to the threshold. No other table runs beside this one.
const SHORTS: [&[f64]; 8] = [
    &[0.0, -0.0],
    &[-0.0, 0.0],
    &[f64::NAN],
    &[f64::NAN, 1.0],
    &[f64::INFINITY, f64::NAN],
    &[f64::INFINITY, f64::NEG_INFINITY],
    &[1.0, 0.01, 0.0],
    &[1.0, 0.010000000000000002, 0.009999999999999998],
];

// The first index at or below a bound.
#[derive(Clone, Copy)]
struct FirstIndex(Option<usize>);

impl fmt::Display for FirstIndex {
    fn fmt<W: fmt::Write>(&self, f: &mut fmt::Formatter<W>) -> fmt::Result {
        match self.0 {
            Some(i) => write!(f, "{i}"),
            None => write!(f, "none"),
        }
    }
}

fn first(values: &[f64], bound: f64) -> FirstIndex {
    FirstIndex(position_at_or_below(values, bound))
}

pub fn shorts(rt: &impl Print) -> io::Result<()> {
    for list in SHORTS {
        println!(rt; "short min {:016x}", bits_of(min(list)))?;
        println!(rt;
            "short threshold {}",
            first(list, BH_RADIAL_FACTOR_THRESHOLD)
        )?;
    }
    Ok(())
}

pub fn lines(rt: &impl Print, vector: Vector, values: &[f64]) -> io::Result<()> {
    println!(rt; "min {vector} {:016x}", bits_of(min(values)))?;
    println!(rt;
        "threshold {vector} {}",
        first(values, BH_RADIAL_FACTOR_THRESHOLD)
    )?;
    for bound in BOUNDS {
        let index = first(values, of_bits(bound));
        println!(rt; "bound {bound:016x} {vector} {index}")?;
    }
    Ok(())
}
