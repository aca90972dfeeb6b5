// What the calls answer where a level or a length is refused, and that memories stay as they were. A call reads from one
// memory, of 300 numbers, and writes to another, of 1400; it gets the first numbers of each. Level 5 wants 264 numbers of
// a state and 1320 of work memory, where the next state stands in numbers 264 to 528.
use crate::memories::base;
use cases::answers::number;
use cases::arguments::{Range, list};
use cases::digest::digest;
use physics::integration::rk4_step;
use physics::state::store;
use physics::state_builder::build_initial_state;
use std::io;
use vectors::bits::bits_of;

// As in oracle/physics/refusals.rs: the level, and how much is lent of each memory.
#[rattlefmt::skip]
const STEPS: [(u32, usize, usize); 14] = [
    (5, 264, 1320), (5, 300, 1400), (5, 263, 1320), (5, 264, 1319), (5, 263, 1319), (5, 0, 1320), (5, 264, 0), (4, 264, 1320),
    (17, 264, 1320), (261, 264, 1320), (4, 263, 1320), (17, 264, 1319), (261, 0, 0), (6, 300, 1400),
];

#[rattlefmt::skip]
const BUILDS: [(u32, usize); 10] = [
    (5, 1320), (5, 1400), (5, 1319), (5, 264), (5, 0), (4, 1320), (17, 1320), (261, 1320), (4, 1319), (6, 1400),
];

#[rattlefmt::skip]
const STORES: [(u32, usize, usize); 12] = [
    (5, 264, 264), (5, 300, 300), (5, 300, 264), (5, 263, 264), (5, 264, 263), (5, 0, 0), (4, 264, 264), (17, 264, 264),
    (261, 264, 264), (4, 263, 264), (17, 264, 263), (6, 300, 300),
];

pub fn steps(rt: &impl Print) -> io::Result<()> {
    for (level, of_state, of_work) in STEPS {
        step(rt, level, of_state, of_work)?;
    }
    Ok(())
}

fn step(rt: &impl Print, level: u32, of_state: usize, of_work: usize) -> io::Result<()> {
    let state = numbers::<300>(7);
    let mut work = numbers::<1400>(8);
    let stepped = rk4_step(
        level,
        3.7,
        base(level),
        &state[..of_state.min(300)],
        &mut work[..of_work.min(1400)],
    );
    print!(rt; "rk4_step level {level} lengths {of_state} {of_work} answer ")?;
    match stepped {
        Ok(time) => {
            print!(rt; "0 time {:016x} left {}", bits_of(time), digest(&state))?;
            made(rt, &work)
        }
        Err(refusal) => println!(rt;
            "{} left {} {}",
            u32::from(refusal),
            digest(&state),
            digest(&work)
        ),
    }
}

pub fn builds(rt: &impl Print) -> io::Result<()> {
    for (level, of_work) in BUILDS {
        let mut work = numbers::<1400>(8);
        let answer = number(build_initial_state(level, 10.0, &mut work[..of_work.min(1400)]));
        print!(rt; "build_initial_state level {level} length {of_work} answer {answer}")?;
        if answer == 0 {
            made(rt, &work)?;
        } else {
            println!(rt; " left {}", digest(&work))?;
        }
    }
    Ok(())
}

pub fn stores(rt: &impl Print) -> io::Result<()> {
    for (level, of_from, of_state) in STORES {
        let from = numbers::<300>(9);
        let mut state = numbers::<300>(7);
        let answer = number(store(
            level,
            &from[..of_from.min(300)],
            &mut state[..of_state.min(300)],
        ));
        print!(rt; "store level {level} lengths {of_from} {of_state} answer {answer}")?;
        println!(rt; " left {} {}", digest(&from), digest(&state))?;
    }
    Ok(())
}

// What a memory holds before the call.
fn numbers<const N: usize>(seed: u64) -> [f64; N] {
    let mut values = [0.0; N];
    list(Range::Unit as u32, seed, &mut values);
    values
}

// The state that stands in work memory at level 5, and what lies after its 40 vectors.
fn made(rt: &impl Print, work: &[f64; 1400]) -> io::Result<()> {
    println!(rt;
        " made {} beyond {}",
        digest(&work[264..528]),
        digest(&work[1320..])
    )
}
