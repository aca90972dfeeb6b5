// Single calls by the generator, as in oracle/run/calls.rs.
use crate::lines::Reply;
use crate::memories::{FRAMES, Lent, Memories, exact, frame_size};
use crate::session::Session;
use crate::settings::{Case, case_of, draw};
use cases::arguments::after;
use cases::digest::mixed;
use run::settings::Settings;
use std::io;

// Cases whose runs end: timeout, collapse, broken, at levels 5 to 8.
const CALLED: [usize; 9] = [3, 5, 6, 12, 13, 23, 24, 27, 33];

#[derive(Clone, Copy)]
struct Call {
    budget: u32,
    lent: Lent,
}

// A case's number and its run.
#[derive(Drop)]
struct Called<'a> {
    k: usize,
    session: Session<'a>,
}

pub fn all(rt: &impl Print, memories: &mut Memories) -> io::Result<()> {
    for k in CALLED {
        calls(rt, k, memories)?;
    }
    Ok(())
}

fn calls(rt: &impl Print, k: usize, memories: &mut Memories) -> io::Result<()> {
    let settings = case_of(k).settings;
    memories.fill();
    let session = Session::begin(settings, exact(settings), memories);
    println!(rt; "case {k} begin {} {}", session.frames, session.left())?;
    let mut called = Called { k, session };
    called.drawn(rt)?;
    called.limits(rt)
}

impl<'a> Called<'a> {
    fn drawn(&mut self, rt: &impl Print) -> io::Result<()> {
        let mut s = mixed(37, self.k as u64);
        for _ in 0..16 {
            self.make(rt, drawn(case_of(self.k), draw(s)))?;
            s = after(s);
        }
        Ok(())
    }

    // Budgets at the limit of 14: one too large, the largest, and the largest of 32 bits, which an ended run accepts.
    fn limits(&mut self, rt: &impl Print) -> io::Result<()> {
        let lent = exact(case_of(self.k).settings);
        let largest = 2147483647u32.wrapping_sub(self.session.record.steps);
        for budget in [largest.wrapping_add(1), largest, u32::MAX] {
            self.make(rt, Call { budget, lent })?;
        }
        Ok(())
    }

    fn make(&mut self, rt: &impl Print, call: Call) -> io::Result<()> {
        let Called { k, session } = self;
        let Call { budget, lent } = call;
        session.memories.fill_work();
        session.advance(budget, lent);
        print!(rt; "case {k} advance {budget} {lent} ")?;
        println!(rt;
            "{} {}",
            Reply(session.answer, session.record),
            session.left()
        )
    }
}

fn drawn(case: Case, p: u32) -> Call {
    let exact = exact(case.settings);
    Call {
        budget: match p % 8 {
            0 => 0,
            1 => 1,
            2 => 2147483648,
            _ => p / 8 % (case.attempts / 3 + 2),
        },
        lent: Lent {
            state: picked(about(exact.state), p / 65536),
            work: picked(about(exact.work), p / 524288),
            frames: picked(rooms(case.settings), p / 4194304),
        },
    }
}

// One of the sizes, by a draw.
fn picked(sizes: [usize; 8], p: u32) -> usize {
    sizes[(p % 8) as usize]
}

// One number too few, three too many, or as many as are needed.
fn about(n: usize) -> [usize; 8] {
    [n.wrapping_sub(1), n.wrapping_add(3), n, n, n, n, n, n]
}

// Frame memory for no frame, for one, for two, for three, or as much as there is.
#[rattlefmt::skip]
fn rooms(settings: Settings) -> [usize; 8] {
    let n = frame_size(settings);
    [0, n.wrapping_sub(1), n, (2 * n).wrapping_sub(1), 2 * n, 3 * n, FRAMES, FRAMES]
}
