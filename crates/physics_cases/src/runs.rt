// Runs from the initial state with steps of a constant length. A run ends after its last step or at a state with a NaN.
use crate::lines;
use crate::memories::{Memories, base};
use physics::state::has_nan;
use std::{fmt, io};
use vectors::bits::bits_of;
use vectors::constants::BH_SLOWDOWN_FACTOR;

#[derive(Clone, Copy)]
enum Speed {
    Base,
    Slowed,
}

#[derive(Clone, Copy)]
struct Run {
    level: u32,
    amplitude: f64,
    speed: Speed,
    last: u32,
}

impl fmt::Display for Run {
    fn fmt<W: fmt::Write>(&self, f: &mut fmt::Formatter<W>) -> fmt::Result {
        let speed = match self.speed {
            Speed::Base => "base",
            Speed::Slowed => "slowed",
        };
        write!(
            f,
            "run level {} amplitude {:016x} {speed}",
            self.level,
            bits_of(self.amplitude)
        )
    }
}

impl Run {
    fn delta(self) -> f64 {
        let factor = match self.speed {
            Speed::Base => 1.0,
            Speed::Slowed => BH_SLOWDOWN_FACTOR,
        };
        base(self.level) * factor
    }
}

// Runs at each level from the least to the most, at each amplitude and each speed.
#[derive(Clone, Copy)]
struct Runs {
    least: u32,
    most: u32,
    amplitudes: &'static [f64],
    speeds: &'static [Speed],
    last: u32,
}

// As in oracle/physics/runs.rs. At 668 and 672 some runs break after steps, at 700 in the initial state.
#[rattlefmt::skip]
const RUNS: [Runs; 2] = [
    Runs {
        least: 5,
        most: 9,
        amplitudes: &[0.0, 0.5, 10.0, 25.0, 26.0, 35.5, 60.0, 163.1, -20.0, 1e-200, 668.0, 672.0, 700.0],
        speeds: &[Speed::Base, Speed::Slowed],
        last: 100,
    },
    Runs { least: 10, most: 13, amplitudes: &[10.0, 35.5, -20.0, 700.0], speeds: &[Speed::Base], last: 2 },
];

pub fn all(rt: &impl Print, memories: &mut Memories) -> io::Result<()> {
    for runs in RUNS {
        levels(rt, runs, memories)?;
    }
    Ok(())
}

fn levels(rt: &impl Print, runs: Runs, memories: &mut Memories) -> io::Result<()> {
    for level in runs.least..=runs.most {
        amplitudes(rt, runs, level, memories)?;
    }
    Ok(())
}

fn amplitudes(rt: &impl Print, runs: Runs, level: u32, memories: &mut Memories) -> io::Result<()> {
    for amplitude in runs.amplitudes {
        speeds(rt, runs, level, *amplitude, memories)?;
    }
    Ok(())
}

fn speeds(
    rt: &impl Print,
    runs: Runs,
    level: u32,
    amplitude: f64,
    memories: &mut Memories,
) -> io::Result<()> {
    for speed in runs.speeds {
        let run = Run {
            level,
            amplitude,
            speed: *speed,
            last: runs.last,
        };
        carry_out(rt, run, memories)?;
    }
    Ok(())
}

fn carry_out(rt: &impl Print, run: Run, memories: &mut Memories) -> io::Result<()> {
    let level = run.level;
    memories.build(level, run.amplitude);
    let mut time = 0.0;
    let mut broken = arrive(rt, run, 0, time, memories.made(level))?;
    for steps in 1..=run.last {
        if broken {
            break;
        }
        memories.store(level);
        time = memories.step(level, time, run.delta());
        broken = arrive(rt, run, steps, time, memories.made(level))?;
    }
    Ok(())
}

// Prints a state where one is due; whether it has a NaN.
fn arrive(rt: &impl Print, run: Run, steps: u32, time: f64, vectors: &[f64]) -> io::Result<bool> {
    let broken = has_nan(time, vectors);
    if broken || matches!(steps, 0 | 1 | 2 | 5 | 20 | 100) {
        print!(rt; "{run} steps {steps}")?;
        lines::state(rt, time, vectors)?;
    }
    Ok(broken)
}
