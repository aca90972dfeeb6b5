// One step from states that no run has: random vectors, one of them replaced by wilder numbers; and from times, and by
// steps, that no run has.
use crate::lines;
use crate::memories::{Memories, base};
use cases::arguments::{Range, after, argument};
use std::io;
use vectors::bits::of_bits;

// A state of the eight vectors that the seed gives, of which one is replaced, or none where it is the eighth.
#[derive(Clone, Copy)]
struct Forged {
    level: u32,
    seed: u64,
    replaced: usize,
}

// Times, and steps over the base, as bits.
#[rattlefmt::skip]
const TIMES: [(u64, u64); 8] = [
    (0x0000000000000000, 0x0000000000000000), (0x8000000000000000, 0x8000000000000000),
    (0x400D99999999999A, 0xBFF0000000000000), (0x400D99999999999A, 0x0000000000000001),
    (0x400D99999999999A, 0x7FF0000000000000), (0x400D99999999999A, 0x7FF8000000000000),
    (0x7FF8000000000000, 0x3FF0000000000000), (0x7FF0000000000000, 0x3FF0000000000000),
];

pub fn levels(rt: &impl Print, memories: &mut Memories) -> io::Result<()> {
    for level in 5..=7 {
        seeds(rt, level, memories)?;
    }
    Ok(())
}

fn seeds(rt: &impl Print, level: u32, memories: &mut Memories) -> io::Result<()> {
    for seed in 1..=3 {
        vectors(rt, level, seed, memories)?;
    }
    Ok(())
}

fn vectors(rt: &impl Print, level: u32, seed: u64, memories: &mut Memories) -> io::Result<()> {
    for replaced in 0..=8 {
        let forged = Forged {
            level,
            seed,
            replaced,
        };
        print!(rt; "forged level {level} seed {seed} replaced {replaced}")?;
        step(rt, forged, 3.7, 1.0, memories)?;
    }
    Ok(())
}

pub fn times(rt: &impl Print, memories: &mut Memories) -> io::Result<()> {
    for (time, factor) in TIMES {
        let forged = Forged {
            level: 5,
            seed: 1,
            replaced: 8,
        };
        print!(rt; "forged level 5 time {time:016x} factor {factor:016x}")?;
        step(rt, forged, of_bits(time), of_bits(factor), memories)?;
    }
    Ok(())
}

// The step is factor times the clock's base.
fn step(
    rt: &impl Print,
    forged: Forged,
    time: f64,
    factor: f64,
    memories: &mut Memories,
) -> io::Result<()> {
    let level = forged.level;
    forge(forged, memories.state(level));
    let next = memories.step(level, time, base(level) * factor);
    lines::state(rt, next, memories.made(level))
}

fn forge(forged: Forged, state: &mut [f64]) {
    let n = state.len() / 8;
    for (k, values) in state.chunks_exact_mut(n.max(1)).enumerate() {
        fill(
            centre(k),
            range(k, forged.replaced),
            forged.seed % 256 * 8 + k as u64,
            values,
        );
    }
}

fn fill(centre: f64, range: Range, seed: u64, values: &mut [f64]) {
    let mut s = seed;
    for x in values.iter_mut() {
        *x = centre + 0.0625 * argument(range as u32, s);
        s = after(s);
    }
}

// The first three vectors lie about 0, the others about 1.
fn centre(k: usize) -> f64 {
    if k < 3 { 0.0 } else { 1.0 }
}

// A step doesn't read vectors 3 and 4, and nothing reads the alternate mass but itself: any pattern will do there.
fn range(k: usize, replaced: usize) -> Range {
    match k {
        _ if k != replaced => Range::Unit,
        2..=4 => Range::Patterns,
        _ => Range::Ten,
    }
}
