// The settings of the runs and how many attempts each gets, as in oracle/run/settings.rs.
use cases::arguments::{Range, after, argument};
use cases::digest::mixed;
use run::settings::Settings;

// Amplitude, level, max time, interval, dx level, skip; attempts.
#[rattlefmt::skip]
const WRITTEN: [(f64, u32, f64, f64, u32, bool, u32); 34] = [
    // amplitude 0, max time 0: timeout after the first step, not before it
    (0.0, 5, 0.0, 1.0, 5, true, 1),
    (0.0, 5, 0.0, 1.0, 5, false, 5),
    // amplitude -0; the interval is the spacing
    (-0.0, 5, 1.0, 0.03125, 5, false, 40),
    // disperses
    (20.0, 5, 4.0, 0.25, 3, false, 160),
    // neighbouring amplitudes: timeout, collapse
    (f64::from_bits(0x4041C6FE5EF70CA2), 5, 4.0, 1.0, 5, true, 200),
    (f64::from_bits(0x4041C6FE5EF70CA3), 5, 4.0, 1.0, 5, true, 200),
    // the least interval; twice the base step
    (20.0, 5, 2.0, f64::from_bits(0x3F9F07C1F07C1F08), 0, false, 120),
    (30.0, 5, 1.0, 0.059375, 1, false, 60),
    // collapse: max time that time, the float below it, 0.47, which the step before passes
    (40.0, 5, f64::from_bits(0x3FE0266666666665), 1.0, 4, false, 30),
    (40.0, 5, f64::from_bits(0x3FE0266666666664), 1.0, 4, false, 30),
    (40.0, 5, 0.47, 1.0, 4, false, 30),
    // collapse at once, the second with the largest amplitude whose initial state has no NaN
    (60.0, 5, 4.0, 1.0, 5, false, 3),
    (f64::from_bits(0x4084E273E543992E), 5, 4.0, 1.0, 5, false, 3),
    // interval NaN, not skipped and skipped; interval infinity, max time NaN; max time -infinity
    (10.0, 5, 4.0, f64::NAN, 5, false, 2),
    (10.0, 5, 4.0, f64::NAN, 5, true, 50),
    (10.0, 5, f64::NAN, f64::INFINITY, 2, false, 60),
    (10.0, 5, f64::NEG_INFINITY, 0.03125, 5, false, 4),
    // max time the first step's time, and the float below it
    (5.0, 5, 0.0296875, 1.0, 5, true, 4),
    (5.0, 5, f64::from_bits(0x3F9E666666666665), 1.0, 5, true, 4),
    // amplitude -20, max time infinity; a subnormal amplitude, interval 0.3; the largest interval, no attempts
    (-20.0, 5, f64::INFINITY, 0.1, 2, false, 100),
    (f64::from_bits(0x00001268D0D0D0D0), 5, 1.0, 0.3, 5, false, 20),
    (10.0, 5, 4.0, f64::MAX, 5, false, 0),
    // level 6: late collapse; collapse with the least interval; slow steps near a black hole
    (30.0, 6, 6.0, 1.0, 5, true, 200),
    (35.0, 6, 6.0, f64::from_bits(0x3F8F81F81F81F820), 6, false, 120),
    (50.0, 6, 0.5, 0.05, 0, false, 300),
    // level 7: neighbouring amplitudes, timeout and collapse; the least interval; wide and narrow intervals
    (f64::from_bits(0x40398CB0A7F663FC), 7, 4.0, 1.0, 7, true, 600),
    (f64::from_bits(0x40398CB0A7F663FD), 7, 4.0, 1.0, 7, true, 600),
    (35.0, 7, 4.0, f64::from_bits(0x3F7FC07F01FC07F0), 7, false, 300),
    (10.0, 7, 1.0, 0.5, 3, false, 140),
    (10.0, 7, 1.0, 0.01, 6, false, 30),
    // level 8
    (20.0, 8, 4.0, f64::from_bits(0x3F6FE01FE01FE020), 8, false, 30),
    (35.0, 8, 4.0, 1.0, 8, true, 100),
    (325.0, 8, 4.0, 1.0, 0, false, 2),
    (20.0, 8, 0.2, 0.1, 4, false, 80),
];

// The least intervals that the levels 5 to 7 accept, as the oracle finds them.
const LEAST: [f64; 3] = [
    f64::from_bits(0x3F9F07C1F07C1F08),
    f64::from_bits(0x3F8F81F81F81F820),
    f64::from_bits(0x3F7FC07F01FC07F0),
];

// The cases that are written out, and 24 by the generator.
pub const CASES: usize = 58;

#[derive(Clone, Copy)]
pub struct Case {
    pub settings: Settings,
    pub attempts: u32,
}

pub fn case_of(k: usize) -> Case {
    match WRITTEN.get(k) {
        Some(row) => written(*row),
        None => drawn(k.wrapping_sub(34) as u64),
    }
}

fn written(row: (f64, u32, f64, f64, u32, bool, u32)) -> Case {
    let (amplitude, level, max_time, interval, dx_level, skip, attempts) = row;
    let settings = Settings {
        amplitude,
        level,
        max_time,
        interval,
        dx_level,
        skip,
    };
    Case { settings, attempts }
}

// A whole number below 2^32 from the generator in state s.
pub fn draw(s: u64) -> u32 {
    (mixed(s, 1) / 256 % 4294967296) as u32
}

// A number from 0 up to 2.
fn unit(s: u64) -> f64 {
    1.0 + argument(Range::Unit as u32, s)
}

fn drawn(k: u64) -> Case {
    let a = mixed(29, k);
    let b = after(a);
    let c = after(b);
    let d = draw(after(c));
    let which = d % 3;
    let settings = Settings {
        amplitude: 30.0 * unit(a),
        level: 5 + which,
        max_time: unit(b),
        interval: LEAST[which as usize] * (1.0 + 7.5 * unit(c)),
        dx_level: d / 8 % (6 + which),
        skip: d / 64 % 4 == 0,
    };
    Case {
        settings,
        attempts: d / 256 % 120,
    }
}
