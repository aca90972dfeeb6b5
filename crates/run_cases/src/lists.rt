// The calls of a run by a list of budgets, as in oracle/run/lists.rs.
use crate::lines::{Mass, name};
use crate::memories::{FRAMES, Lent, Memories, exact, frame_size, state_size};
use crate::session::Session;
use crate::settings::{CASES, Case, case_of, draw};
use cases::arguments::after;
use cases::digest::{mixed, with};
use run::settings::Settings;
use std::io;
use vectors::bits::bits_of;

// The lists by their numbers: all attempts at once; one at a time; cut at random; so cut, with calls that are refused between
// them; all at once, with room for a frame; cut, with more memory than is needed.
#[derive(Clone, Copy)]
enum List {
    Whole,
    Ones,
    Cuts,
    Refusals,
    Short,
    Long,
}

const LISTS: [List; 6] = [
    List::Whole,
    List::Ones,
    List::Cuts,
    List::Refusals,
    List::Short,
    List::Long,
];

// How many budgets a list of cuts has: a count, and no kind.
const CUTS: u32 = 8;

// A case by its number, and a list.
#[derive(Clone, Copy)]
struct Listed {
    k: usize,
    list: List,
}

pub fn all(rt: &impl Print, memories: &mut Memories) -> io::Result<()> {
    for k in 0..CASES {
        lists(rt, k, memories)?;
    }
    Ok(())
}

fn lists(rt: &impl Print, k: usize, memories: &mut Memories) -> io::Result<()> {
    for list in LISTS {
        line(rt, Listed { k, list }, memories)?;
    }
    Ok(())
}

// The calls; outcome, steps, time and mass; the digest of the state; the frames and their digest.
fn line(rt: &impl Print, listed: Listed, memories: &mut Memories) -> io::Result<()> {
    let session = listed.carry_out(memories);
    let record = session.record;
    print!(rt; "case {} list {} ", listed.k, listed.list as u32)?;
    print!(rt;
        "calls {} full {} refused {} ",
        session.calls, session.full, session.refused
    )?;
    print!(rt;
        "{} {} {:016x} {} ",
        name(session.answer),
        record.steps,
        bits_of(record.time),
        Mass(session.answer)
    )?;
    println!(rt;
        "state {} frames {} {}",
        state_digest(&session),
        session.frames,
        session.digest
    )
}

// The digest of the time and of the state's numbers.
fn state_digest(session: &Session) -> u64 {
    let record = session.record;
    let size = state_size(record.settings.level);
    session.memories.state[..size]
        .iter()
        .fold(with(1, record.time), |d, x| with(d, *x))
}

impl Listed {
    fn carry_out<'a>(self, memories: &'a mut Memories) -> Session<'a> {
        let Case { settings, attempts } = case_of(self.k);
        let lent = lent(settings, self.list);
        let mut session = Session::begin(settings, lent, memories);
        match self.list {
            List::Whole | List::Short => session.spend(attempts, lent),
            List::Ones => ones(&mut session, attempts, lent),
            List::Cuts | List::Refusals | List::Long => self.cuts(&mut session, attempts, lent),
        }
        session
    }

    // Random budgets, some of them 0, and at last what is left.
    fn cuts(self, session: &mut Session, attempts: u32, lent: Lent) {
        let mut left = attempts;
        let mut s = mixed(mixed(31, self.k as u64), self.list as u64);
        for turn in 1..=CUTS {
            if matches!(self.list, List::Refusals) {
                refusals(session, lent);
            }
            let drawn = draw(s) % (attempts / 3 + 2);
            let budget = if turn == CUTS { left } else { left.min(drawn) };
            session.spend(budget, lent);
            left = left.wrapping_sub(budget);
            s = after(s);
        }
    }
}

fn ones(session: &mut Session, attempts: u32, lent: Lent) {
    for _ in 0..attempts {
        session.spend(1, lent);
    }
}

// Calls that are refused unless the run has ended: state or work memory one short, a budget too large.
fn refusals(session: &mut Session, lent: Lent) {
    session.advance(
        1,
        Lent {
            state: lent.state.wrapping_sub(1),
            ..lent
        },
    );
    session.advance(
        1,
        Lent {
            work: lent.work.wrapping_sub(1),
            ..lent
        },
    );
    session.advance(2147483648, lent);
}

// Exact, or with some numbers more. A skipped run needs no frame memory.
fn lent(settings: Settings, list: List) -> Lent {
    let exact = exact(settings);
    let size = frame_size(settings);
    match list {
        List::Whole => exact,
        List::Ones | List::Short if settings.skip => Lent { frames: 0, ..exact },
        List::Ones => Lent {
            frames: size,
            ..exact
        },
        List::Cuts => Lent {
            frames: 3 * size + 7,
            ..exact
        },
        List::Refusals => Lent {
            frames: 2 * size,
            ..exact
        },
        List::Short => Lent {
            frames: (2 * size).wrapping_sub(1),
            ..exact
        },
        List::Long => Lent {
            state: exact.state.wrapping_add(3),
            work: exact.work.wrapping_add(3),
            frames: size + 1,
        },
    }
}
