// The three memories: how long they are for a level, how much of each a call is lent, and what stands in them.
ghost use Rattle.std.specs.Prelude.{◌≤◌};

use cases::arguments::{Range, list};
use cases::digest::digest;
use run::refusal::Refusal;
use run::settings::{Record, Settings};
use run::simulate::{Advanced, Begun};
use run::{simulate, state_output_builder};
use std::fmt;
use vectors::grid::length_at_discretization;

pub const STATE: usize = 2064;

pub const WORK: usize = 10288;

pub const FRAMES: usize = 8192;

// rt goes beside them: a struct of both would have the type of the handle as a parameter, and be no plainer.
#[derive(Drop)]
pub struct Memories {
    pub state: [f64; STATE],
    pub work: [f64; WORK],
    pub frames: [f64; FRAMES],
}

// How many numbers of each memory a call gets, from the first on.
#[derive(Clone, Copy)]
pub struct Lent {
    pub state: usize,
    pub work: usize,
    pub frames: usize,
}

pub const ALL: Lent = Lent {
    state: STATE,
    work: WORK,
    frames: FRAMES,
};

// `Left` writes another word, and its fields in another sequence: one function for both would be no shorter.
impl fmt::Display for Lent {
    fn fmt<W: fmt::Write>(&self, f: &mut fmt::Formatter<W>) -> fmt::Result {
        write!(f, "lent {} {} {}", self.state, self.work, self.frames)
    }
}

// Digests of state memory, of frame memory and of what stays in work memory.
#[derive(Clone, Copy)]
pub struct Left {
    state: u64,
    frames: u64,
    work: u64,
}

impl fmt::Display for Left {
    fn fmt<W: fmt::Write>(&self, f: &mut fmt::Formatter<W>) -> fmt::Result {
        write!(f, "memories {} {} {}", self.state, self.frames, self.work)
    }
}

// The points of a level, up to level 8, the highest that is run.
fn points(level: u32) -> usize
    ensures { result ≤ 257 }
{
    length_at_discretization(level).min(257)
}

pub fn state_size(level: u32) -> usize
    ensures { result ≤ 2056 }
{
    8 * points(level)
}

pub fn work_size(level: u32) -> usize
    ensures { result ≤ 10280 }
{
    40 * points(level)
}

// The numbers of a frame, up to dx level 8.
pub fn frame_size(settings: Settings) -> usize
    ensures { result ≤ 2315 }
{
    state_output_builder::frame_size(settings).min(2315)
}

// What a run needs, and all of frame memory.
pub fn exact(settings: Settings) -> Lent {
    Lent {
        state: state_size(settings.level),
        work: work_size(settings.level),
        frames: FRAMES,
    }
}

impl Memories {
    pub fn fill(&mut self) {
        list(Range::Unit as u32, 7, &mut self.state);
        list(Range::Unit as u32, 8, &mut self.frames);
        self.fill_work();
    }

    pub fn fill_work(&mut self) {
        list(Range::Unit as u32, 9, &mut self.work);
    }

    pub fn put(&mut self, at: usize, x: f64) {
        if at < STATE {
            self.state[at] = x;
        }
    }

    // Settings and lent stay two arguments: a struct of both would be made at each of its three uses only to be taken apart here.
    pub fn begin(&mut self, settings: Settings, lent: Lent) -> Result<Begun, Refusal> {
        let Memories {
            state,
            work,
            frames,
        } = self;
        let (state, work, frames) = (&mut state[..], &mut work[..], &mut frames[..]);
        simulate::begin(
            settings,
            &mut state[..lent.state.min(STATE)],
            &mut work[..lent.work.min(WORK)],
            &mut frames[..lent.frames.min(FRAMES)],
        )
    }

    pub fn advance(&mut self, record: Record, lent: Lent, budget: u32) -> Advanced {
        let Memories {
            state,
            work,
            frames,
        } = self;
        let (state, work, frames) = (&mut state[..], &mut work[..], &mut frames[..]);
        simulate::advance(
            record,
            &mut state[..lent.state.min(STATE)],
            &mut work[..lent.work.min(WORK)],
            &mut frames[..lent.frames.min(FRAMES)],
            budget,
        )
    }

    // The call used so many numbers of work memory.
    pub fn left(&self, used: usize) -> Left {
        Left {
            state: digest(&self.state),
            frames: digest(&self.frames),
            work: digest(&self.work[used.min(WORK)..]),
        }
    }
}
