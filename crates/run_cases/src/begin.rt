// What begin answers, as in oracle/run/begin.rs.
use crate::memories::{ALL, Lent, Memories, work_size};
use run::refusal::Refusal;
use run::settings::Settings;
use std::io;
use vectors::bits::of_bits;

// Settings that are accepted.
const SOUND: Settings = Settings {
    amplitude: 20.0,
    level: 5,
    max_time: 1.0,
    interval: 1.0,
    dx_level: 5,
    skip: false,
};

// Each level and the least interval that it accepts, as bits.
#[rattlefmt::skip]
const LEAST: [(u32, u64); 12] = [
    (5, 0x3F9F07C1F07C1F08), (6, 0x3F8F81F81F81F820), (7, 0x3F7FC07F01FC07F0), (8, 0x3F6FE01FE01FE020),
    (9, 0x3F5FF007FC01FF00), (10, 0x3F4FF801FF801FF8), (11, 0x3F3FFC007FF00200), (12, 0x3F2FFE001FFE0020),
    (13, 0x3F1FFF0007FFC002), (14, 0x3F0FFF8001FFF800), (15, 0x3EFFFFC0007FFF00), (16, 0x3EEFFFE0001FFFE0),
];

// Zeros, -1, -infinity, the least float, NaN, infinity, the largest.
#[rattlefmt::skip]
const INTERVALS: [u64; 8] = [
    0x0000000000000000, 0x8000000000000000, 0xBFF0000000000000, 0xFFF0000000000000, 0x0000000000000001, 0x7FF8000000000000,
    0x7FF0000000000000, 0x7FEFFFFFFFFFFFFF,
];

// At level 5 a state has 264 numbers, work 1,320 and a frame of dx level 5 has 299.
const EXACT: Lent = Lent {
    state: 264,
    work: 1320,
    frames: 299,
};

// What a begin is lent: as much as it needs; less of one memory; less of each; all that there is.
const LENGTHS: [Lent; 9] = [
    EXACT,
    Lent {
        state: 263,
        work: 1320,
        frames: 299,
    },
    Lent {
        state: 264,
        work: 1319,
        frames: 299,
    },
    Lent {
        state: 264,
        work: 1320,
        frames: 298,
    },
    Lent {
        state: 0,
        work: 1320,
        frames: 299,
    },
    Lent {
        state: 264,
        work: 0,
        frames: 299,
    },
    Lent {
        state: 264,
        work: 1320,
        frames: 0,
    },
    Lent {
        state: 263,
        work: 1319,
        frames: 0,
    },
    ALL,
];

// Level and amplitude: NaN, infinities, the largest float, and at each level the largest whose initial state has no NaN, and
// the next.
#[rattlefmt::skip]
const AMPLITUDES: [(u32, u64); 12] = [
    (5, 0x7FF8000000000000), (5, 0x7FF0000000000000), (5, 0xFFF0000000000000), (5, 0x7FEFFFFFFFFFFFFF), (5, 0x4084E273E543992E),
    (5, 0x4084E273E543992F), (6, 0x4085004B631175F5), (6, 0x4085004B631175F6), (7, 0x4085016DCD084AF5),
    (7, 0x4085016DCD084AF6), (8, 0x4085017E590A6FC9), (8, 0x4085017E590A6FCA),
];

// All faults at once, then one fewer at a time: the first of 5, 6, 7, 11, 12, 13 is answered. Level, interval, dx level,
// amplitude; work and frame memory.
const ORDERS: [(u32, f64, u32, f64, usize, usize); 7] = [
    (4, 0.0, 6, f64::NAN, 1319, 298),
    (5, 0.0, 6, f64::NAN, 1319, 298),
    (5, 1.0, 6, f64::NAN, 1319, 298),
    (5, 1.0, 5, f64::NAN, 1319, 298),
    (5, 1.0, 5, f64::NAN, 1320, 298),
    (5, 1.0, 5, f64::NAN, 1320, 299),
    (5, 1.0, 5, 20.0, 1320, 299),
];

pub fn levels(rt: &impl Print, memories: &mut Memories) -> io::Result<()> {
    for level in [4, 17, 261, 0, u32::MAX, 5] {
        print!(rt; "begin level {level}")?;
        line(rt, Settings { level, ..SOUND }, ALL, memories)?;
    }
    Ok(())
}

// The float below the least interval, and the least.
pub fn least_intervals(rt: &impl Print, memories: &mut Memories) -> io::Result<()> {
    for (level, least) in LEAST {
        let below = least.wrapping_sub(1);
        print!(rt; "begin level {level} interval {below:016x}")?;
        line(
            rt,
            Settings {
                level,
                interval: of_bits(below),
                ..SOUND
            },
            ALL,
            memories,
        )?;
        print!(rt; "begin level {level} interval {least:016x}")?;
        line(
            rt,
            Settings {
                level,
                interval: of_bits(least),
                ..SOUND
            },
            ALL,
            memories,
        )?;
    }
    Ok(())
}

pub fn intervals(rt: &impl Print, memories: &mut Memories) -> io::Result<()> {
    for b in INTERVALS {
        print!(rt; "begin interval {b:016x}")?;
        line(
            rt,
            Settings {
                interval: of_bits(b),
                ..SOUND
            },
            ALL,
            memories,
        )?;
    }
    Ok(())
}

pub fn dx_levels(rt: &impl Print, memories: &mut Memories) -> io::Result<()> {
    for dx_level in [6, u32::MAX, 5, 0] {
        print!(rt; "begin dx {dx_level}")?;
        line(rt, Settings { dx_level, ..SOUND }, ALL, memories)?;
    }
    Ok(())
}

pub fn lengths(rt: &impl Print, memories: &mut Memories) -> io::Result<()> {
    for lent in LENGTHS {
        print!(rt; "begin {lent} skip 0")?;
        line(rt, SOUND, lent, memories)?;
        print!(rt; "begin {lent} skip 1")?;
        line(
            rt,
            Settings {
                skip: true,
                ..SOUND
            },
            lent,
            memories,
        )?;
    }
    Ok(())
}

pub fn amplitudes(rt: &impl Print, memories: &mut Memories) -> io::Result<()> {
    for (level, b) in AMPLITUDES {
        let settings = Settings {
            amplitude: of_bits(b),
            level,
            dx_level: 0,
            ..SOUND
        };
        print!(rt; "begin level {level} amplitude {b:016x} skip 0")?;
        line(rt, settings, ALL, memories)?;
        print!(rt; "begin level {level} amplitude {b:016x} skip 1")?;
        line(
            rt,
            Settings {
                skip: true,
                ..settings
            },
            ALL,
            memories,
        )?;
    }
    Ok(())
}

pub fn orders(rt: &impl Print, memories: &mut Memories) -> io::Result<()> {
    for (k, row) in ORDERS.iter().enumerate() {
        let (level, interval, dx_level, amplitude, work, frames) = *row;
        print!(rt; "begin order {k}")?;
        line(
            rt,
            Settings {
                level,
                interval,
                dx_level,
                amplitude,
                ..SOUND
            },
            Lent {
                work,
                frames,
                ..EXACT
            },
            memories,
        )?;
    }
    Ok(())
}

// The answer and what the call left. Work memory is used unless the call is refused before the initial state is made.
fn line(
    rt: &impl Print,
    settings: Settings,
    lent: Lent,
    memories: &mut Memories,
) -> io::Result<()> {
    memories.fill();
    let used = match memories.begin(settings, lent) {
        Err(refusal) => {
            print!(rt; " refused {} ", u8::from(refusal))?;
            if refusal == Refusal::InitialNan {
                work_size(settings.level)
            } else {
                0
            }
        }
        Ok(begun) => {
            print!(rt; " accepted {} ", begun.count)?;
            work_size(settings.level)
        }
    };
    println!(rt; "{}", memories.left(used))
}
