// An advance on a record or a state that no run has, as in oracle/run/forged.rs.
use crate::lines::Reply;
use crate::memories::{Memories, exact};
use crate::session::Session;
use run::settings::{Record, Settings};
use std::{fmt, io};
use vectors::bits::of_bits;

// Which of the eight vectors, the entry, the bits of what is put there. The bytes are places, and no kinds.
#[rattlefmt::skip]
const STATES: [(u8, u8, u64); 20] = [
    (0, 3, 0x7FF0000000000000), (0, 0, 0x7FF8000000000000), (0, 32, 0x4000000000000000), (1, 5, 0x7FF8000000000000),
    (1, 5, 0x5FF0000000000000), (2, 7, 0x7FF8000000000000), (2, 7, 0x7FF0000000000000), (3, 4, 0x7FF8000000000000),
    (4, 9, 0x7FF8000000000000), (5, 6, 0x3F847AE147AE147B), (5, 6, 0x3F847AE147AE147C), (5, 6, 0x3FB999999999999A),
    (5, 6, 0x3FB9999999999999), (5, 6, 0x7FF8000000000000), (5, 0, 0x8000000000000000), (6, 4, 0x0000000000000000),
    (6, 31, 0x4008000000000000), (7, 2, 0x7FF8000000000000), (7, 2, 0xFFF0000000000000), (7, 31, 0x4000000000000000),
];

// What is put into a field of the record, of a float its bits.
#[derive(Clone, Copy)]
enum Forged {
    Time(u64),
    Steps(u32),
    Broken(bool),
    Level(u32),
    Interval(u64),
    DxLevel(u32),
    MaxTime(u64),
    Skip(bool),
}

// Beside it the budget.
#[rattlefmt::skip]
const RECORDS: [(Forged, u32); 18] = [
    (Forged::Time(0x7FF8000000000000), 2), (Forged::Time(0x7FF0000000000000), 2), (Forged::Time(0x3FEFAE147AE147AE), 2),
    (Forged::Time(0x3FD0000000000000), 2), (Forged::Time(0xBFD3333333333333), 2), (Forged::Time(0x4330000000000000), 2),
    (Forged::Steps(2147483645), 2), (Forged::Steps(2147483646), 2), (Forged::Steps(4294967295), 2), (Forged::Steps(4294967295), 0),
    (Forged::Broken(true), 4294967295), (Forged::Level(4), 2), (Forged::Level(261), 2), (Forged::Interval(0x0000000000000000), 2),
    (Forged::DxLevel(6), 2), (Forged::MaxTime(0x3F9E666666666666), 2), (Forged::MaxTime(0x3F9E666666666666), 4294967295),
    (Forged::Skip(true), 2),
];

// The number of the field and the value, as the line has them.
impl fmt::Display for Forged {
    fn fmt<W: fmt::Write>(&self, f: &mut fmt::Formatter<W>) -> fmt::Result {
        match self {
            Forged::Time(b) => write!(f, "0 {b}"),
            Forged::Steps(n) => write!(f, "1 {n}"),
            Forged::Broken(mark) => write!(f, "2 {}", *mark as u32),
            Forged::Level(n) => write!(f, "3 {n}"),
            Forged::Interval(b) => write!(f, "4 {b}"),
            Forged::DxLevel(n) => write!(f, "5 {n}"),
            Forged::MaxTime(b) => write!(f, "6 {b}"),
            Forged::Skip(skip) => write!(f, "7 {}", *skip as u32),
        }
    }
}

// Amplitude 20, run for three attempts: a frame at the start, none since.
const RUN: Settings = Settings {
    amplitude: 20.0,
    level: 5,
    max_time: 4.0,
    interval: 0.25,
    dx_level: 5,
    skip: false,
};

// At level 5 a vector has 33 entries.
pub fn states(rt: &impl Print, memories: &mut Memories) -> io::Result<()> {
    for (vector, i, b) in STATES {
        let mut session = run(memories);
        session
            .memories
            .put(33 * usize::from(vector) + usize::from(i), of_bits(b));
        print!(rt; "forged state {vector} {i} {b:016x} ")?;
        line(rt, &mut session, 2)?;
    }
    Ok(())
}

pub fn records(rt: &impl Print, memories: &mut Memories) -> io::Result<()> {
    for (forged, budget) in RECORDS {
        let mut session = run(memories);
        session.record = with(session.record, forged);
        print!(rt; "forged record {forged} advance {budget} ")?;
        line(rt, &mut session, budget)?;
    }
    Ok(())
}

fn run<'a>(memories: &'a mut Memories) -> Session<'a> {
    memories.fill();
    let mut session = Session::begin(RUN, exact(RUN), memories);
    session.advance(3, exact(RUN));
    session
}

fn line(rt: &impl Print, session: &mut Session, budget: u32) -> io::Result<()> {
    session.memories.fill_work();
    session.advance(budget, exact(RUN));
    println!(rt;
        "{} {}",
        Reply(session.answer, session.record),
        session.left()
    )
}

fn with(record: Record, forged: Forged) -> Record {
    let settings = record.settings;
    match forged {
        Forged::Time(b) => Record {
            time: of_bits(b),
            ..record
        },
        Forged::Steps(steps) => Record { steps, ..record },
        Forged::Broken(broken) => Record { broken, ..record },
        Forged::Level(level) => Record {
            settings: Settings { level, ..settings },
            ..record
        },
        Forged::Interval(b) => Record {
            settings: Settings {
                interval: of_bits(b),
                ..settings
            },
            ..record
        },
        Forged::DxLevel(dx_level) => Record {
            settings: Settings {
                dx_level,
                ..settings
            },
            ..record
        },
        Forged::MaxTime(b) => Record {
            settings: Settings {
                max_time: of_bits(b),
                ..settings
            },
            ..record
        },
        Forged::Skip(skip) => Record {
            settings: Settings { skip, ..settings },
            ..record
        },
    }
}
