// A search on parts of the memories, and what it may change there.
use crate::drawn::DRAWN;
use crate::lines::Shown;
use crate::memories::{Memories, STATE, WORK};
use crate::table::{Row, WRITTEN};
use cases::digest::mixed;
use run::refusal::Refusal as RunRefusal;
use run::settings::Settings;
use std::io;
use threshold::refusal::Refusal;
use threshold::{Bracket, search, search_in};
use vectors::bits::{bits_of, of_bits};

// `search_in`; `search`, which looks at no unit.
#[derive(Clone, Copy)]
pub enum Call {
    In,
    Alone,
}

// The settings and the unit of the ends; the ends, halvings and budget; how much is lent of each memory; the call.
#[derive(Clone, Copy)]
struct Asked {
    unit: f64,
    settings: Settings,
    low: u64,
    high: u64,
    halvings: u32,
    budget: u32,
    state: usize,
    work: usize,
    call: Call,
}

impl From<Row> for Asked {
    fn from(row: Row) -> Asked {
        let (unit, settings, (low, high, halvings, budget), (state, work), call) = row;
        let (amplitude, level, max_time, interval, dx_level, skip) = settings;
        Asked {
            unit,
            settings: Settings {
                amplitude,
                level,
                max_time,
                interval,
                dx_level,
                skip,
            },
            low,
            high,
            halvings,
            budget,
            state,
            work,
            call,
        }
    }
}

pub fn written(rt: &impl Print, memories: &mut Memories) -> io::Result<()> {
    for (k, row) in WRITTEN.iter().enumerate() {
        carry_out(rt, k, Asked::from(*row), memories)?;
    }
    Ok(())
}

pub fn drawn(rt: &impl Print, memories: &mut Memories) -> io::Result<()> {
    for (k, row) in DRAWN.iter().enumerate() {
        let (unit, (amplitude, level, max_time, interval, dx_level, skip), ends) = *row;
        let settings = (
            of_bits(amplitude),
            level,
            of_bits(max_time),
            of_bits(interval),
            dx_level,
            skip,
        );
        let row = (of_bits(unit), settings, ends, (STATE, WORK), Call::In);
        carry_out(rt, WRITTEN.len() + k, Asked::from(row), memories)?;
    }
    Ok(())
}

// The case's number, a digest of what is asked, the answer, and how many numbers changed that must not.
fn carry_out(rt: &impl Print, k: usize, asked: Asked, memories: &mut Memories) -> io::Result<()> {
    memories.fill();
    let answer = memories.search(asked);
    print!(rt; "case {k} asked {} {}", digest(asked), Shown(answer))?;
    println!(rt;
        " beyond {}",
        beyond(answer, asked.settings.level, memories)
    )
}

// Nothing may change where the search is refused before its first run begins.
fn beyond(answer: Result<Bracket, Refusal>, level: u32, memories: &Memories) -> usize {
    match answer {
        Ok(_) | Err(Refusal::Sides | Refusal::Run(RunRefusal::InitialNan)) => {
            memories.changed_beyond(level)
        }
        Err(_) => memories.changed(),
    }
}

// Of all that is asked, floats by their bits; of each word the high half first.
#[rattlefmt::skip]
fn digest(asked: Asked) -> u64 {
    let s = asked.settings;
    let words = [
        bits_of(asked.unit), bits_of(s.amplitude), s.level as u64, bits_of(s.max_time), bits_of(s.interval), s.dx_level as u64,
        s.skip as u64, asked.low, asked.high, asked.halvings as u64, asked.budget as u64, asked.state as u64, asked.work as u64,
        asked.call as u64,
    ];
    words.iter().fold(1, |d, word| mixed(mixed(d, word / 4294967296), word % 4294967296))
}

impl Memories {
    fn search(&mut self, asked: Asked) -> Result<Bracket, Refusal> {
        let Memories { state, work } = self;
        let (state, work) = (&mut state[..], &mut work[..]);
        let state = &mut state[..asked.state.min(STATE)];
        let work = &mut work[..asked.work.min(WORK)];
        let Asked {
            unit,
            settings,
            low,
            high,
            halvings,
            budget,
            call,
            ..
        } = asked;
        match call {
            Call::In => search_in(unit, settings, low, high, halvings, budget, state, work),
            Call::Alone => search(settings, low, high, halvings, budget, state, work),
        }
    }
}
