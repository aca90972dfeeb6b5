// A run under way: a begin and advances, and the frames joined call by call.
use crate::memories::{FRAMES, Left, Lent, Memories, frame_size, work_size};
use cases::digest::with;
use run::outcome::Outcome;
use run::refusal::Refusal;
use run::settings::{Record, Settings};
use run::simulate::Answer;

// No budget takes so many calls.
const MOST: u32 = 1000;

// The memories; the record and the answer of the last call; how many advances there were, and of these how many were full or
// refused; how many frames were joined and their digest.
#[derive(Drop)]
pub struct Session<'a> {
    pub memories: &'a mut Memories,
    pub record: Record,
    pub answer: Result<Answer, Refusal>,
    pub calls: u32,
    pub full: u32,
    pub refused: u32,
    pub frames: usize,
    pub digest: u64,
}

impl<'a> Session<'a> {
    pub fn begin(settings: Settings, lent: Lent, memories: &'a mut Memories) -> Self {
        let begun = memories.begin(settings, lent);
        let mut session = Session {
            memories,
            record: Record {
                settings,
                time: 0.0,
                steps: 0,
                broken: false,
            },
            answer: Ok(Answer::Ran(Outcome::Spent, 0)),
            calls: 0,
            full: 0,
            refused: 0,
            frames: 0,
            digest: 1,
        };
        match begun {
            Err(refusal) => session.answer = Err(refusal),
            Ok(begun) => {
                session.record = begun.record;
                session.join(begun.count);
            }
        }
        session
    }

    pub fn advance(&mut self, budget: u32, lent: Lent) {
        let advanced = self.memories.advance(self.record, lent, budget);
        self.record = advanced.record;
        self.answer = advanced.answer;
        self.calls = self.calls.wrapping_add(1);
        match self.answer {
            Err(_) => self.refused = self.refused.wrapping_add(1),
            Ok(Answer::Full(_, count)) => {
                self.full = self.full.wrapping_add(1);
                self.join(count);
            }
            Ok(Answer::Ran(_, count)) => self.join(count),
        }
    }

    // An advance, and after full advances with the rest of the budget.
    pub fn spend(&mut self, budget: u32, lent: Lent) {
        let mut rest = budget;
        for _ in 0..MOST {
            self.advance(rest, lent);
            let Ok(Answer::Full(made, _)) = self.answer else {
                return;
            };
            rest = rest.wrapping_sub(made);
        }
    }

    // What the last advance left. It used work memory unless it was refused.
    pub fn left(&self) -> Left {
        match self.answer {
            Err(_) => self.memories.left(0),
            Ok(_) => self.memories.left(work_size(self.record.settings.level)),
        }
    }

    // Joins the frames that a call wrote.
    fn join(&mut self, count: usize) {
        let end = count
            .wrapping_mul(frame_size(self.record.settings))
            .min(FRAMES);
        self.frames = self.frames.wrapping_add(count);
        self.digest = self.memories.frames[..end]
            .iter()
            .fold(self.digest, |d, x| with(d, *x));
    }
}
