// From use_cases/simulate.rs: a run in calls, a begin and then any number of advances.
ghost use Rattle.std.specs.Prelude.{◌≡◌, ◌+◌, ◌^◌, ◌<◌, ◌&&◌, length, drop, if◌then◌else◌, nat_le};
ghost use Rattle.std.specs.Prelude.{None, Some, Ok};
ghost use Rattle.std.specs.Float.Ieee.{lt};
ghost use Rattle.run.specs.Model.{fault_at, work_count};
ghost use Rattle.run.specs.PlainRun.{has_ended, outcome_of, option};
ghost use Rattle.run.specs.Tally.{too_short};
ghost use Rattle.run.specs.Calls.{lent_refusal, begin_of, begin_uses, advance_refusal, advance_of, advance_uses};
ghost use Rattle.run.specs.Outcome.{meant_by};
ghost use Rattle.run.specs.Refusal.{refusal_of};
ghost use Rattle.run.specs.Answers.{after_begin, after_advance, machine_in, lacks_room, CanAttempt, Attempted, AdvanceLeaves};

use crate::adaptive_time_step::TimeStep;
use crate::live::Live;
use crate::model::{has_nan, late, start_state, step, store_next};
use crate::outcome::Outcome;
use crate::refusal::Refusal;
use crate::settings::{Record, Settings};
use crate::simulation_inputs::validate;
use crate::state_output_builder::{frame_size, write_frame};
use physics::state::{state_size, work_size};

// What an advance answers that is not refused: full with the attempts made, or the outcome; each with how many frames it wrote.
#[derive(Clone, Copy)]
pub enum Answer {
    Full(u32, usize),
    Ran(Outcome, usize),
}

#[derive(Clone, Copy)]
pub struct Advanced {
    pub answer: Result<Answer, Refusal>,
    pub record: Record,
}

// What a begin answers that is not refused: the record, and how many frames it wrote.
#[derive(Clone, Copy)]
pub struct Begun {
    pub record: Record,
    pub count: usize,
}

// Whether state or work memory is too short. The settings and the lengths stay parameters, since a `Live` is made of memories that fit.
fn too_short(s: Settings, state: usize, work: usize) -> bool
    ensures { result ≡ too_short s state work }
{
    state < state_size(s.level) || work < work_size(s.level)
}

// Whether a call is refused by its settings and by the memories that it is lent.
#[tactic(auto, unfolding(crate::specs::Model::fault_at))]
fn lent(s: Settings, state: usize, work: usize) -> Result<(), Refusal>
    ensures { refusal_of result ≡ option (fault_at s) Some (if too_short s state work then Some 11 else None) }
{
    validate(s)?;
    if too_short(s, state, work) {
        return Err(Refusal::Memory);
    }
    Ok(())
}

impl Live<'_> {
    // Whether the run has made a step and is past its max time.
    fn timed_out(&self) -> bool
        ensures { let r = self.now.run in result ≡ (nat_le 1 r.steps && lt r.settings.max_time r.time) }
    {
        1 <= self.run.steps && late(self.run.settings, self.run.time)
    }

    // Whether the run has ended.
    #[tactic(auto, using(crate::proofs::Leaves::late_in), unfolding(crate::specs::PlainRun::ended))]
    fn has_ended(&self) -> bool
        ensures { result ≡ has_ended self.now.run.settings (machine_in self.now) }
    {
        self.mass().is_some() || self.timed_out() || self.run.broken
    }

    // The run's outcome.
    #[tactic(auto, using(crate::proofs::Leaves::late_in), unfolding(crate::specs::PlainRun::outcome))]
    fn outcome(&self) -> Outcome
        ensures { meant_by result ≡ outcome_of self.now.run.settings (machine_in self.now) }
    {
        if let Some(mass) = self.mass() {
            return Outcome::Collapse(mass);
        }
        if self.run.broken {
            return Outcome::Broken;
        }
        if self.timed_out() {
            return Outcome::Timeout;
        }
        Outcome::Spent
    }

    // Whether a frame step comes, and fewer numbers of frame memory are left than a frame has.
    #[tactic(auto, unfolding(crate::specs::Model::frame_count))]
    fn is_full(&self, framed: bool) -> bool
        ensures { result ≡ (framed && lacks_room self.now) }
    {
        let f = frame_size(self.run.settings);
        framed && self.frames.len() - self.count * f < f
    }

    // One attempt of a run that has not ended and has room.
    #[tactic(auto, unfolding(crate::specs::Model::frame_count))]
    fn attempt(&mut self, clock: TimeStep)
        requires { CanAttempt self.old clock }
        ensures { Attempted self.old self.new }
    {
        let s = self.run.settings;
        let state = &mut *self.state;
        let work = &mut *self.work;
        let time = step(s, self.run.time, clock.delta, state, work);
        if has_nan(s, time, work) {
            self.run.broken = true;
            return;
        }
        store_next(s, work, state);
        self.run.time = time;
        self.run.steps += 1;
        if clock.framed {
            let at = self.count * frame_size(s);
            write_frame(s, time, state, work, self.frames, at);
            self.count += 1;
        }
    }

    // Makes at most so many attempts, and stops before a frame step with no room for its frame.
    fn attempts(&mut self, budget: u32) -> Answer
        requires { let a = self.old in (a.count ≡ 0) × (advance_refusal a.run a.state.now (length a.work.now) budget ≡ None) }
        ensures { AdvanceLeaves self.old budget (Ok result) self.new }
    {
        for made in 0..budget {
            if self.has_ended() {
                return Answer::Ran(self.outcome(), self.count);
            }
            let clock = self.clock();
            if self.is_full(clock.framed) {
                return Answer::Full(made, self.count);
            }
            self.attempt(clock);
        }
        Answer::Ran(self.outcome(), self.count)
    }

    // Goes on with the run, by at most so many attempts.
    fn advance(&mut self, budget: u32) -> Result<Answer, Refusal>
        requires { self.old.count ≡ 0 }
        ensures { AdvanceLeaves self.old budget result self.new }
    {
        if !self.has_ended() && self.run.steps as u64 + budget as u64 > 2147483647 {
            return Err(Refusal::Steps);
        }
        Ok(self.attempts(budget))
    }
}

// Goes on with a run, by at most so many attempts. The memories are lent one by one, here and below: a `Live` is made of them once the call is
// not refused.
#[tactic(auto, unfolding(crate::specs::Calls::advance_of, crate::specs::Calls::advance_uses, crate::specs::Calls::advance_refusal))]
pub fn advance(
    run: Record,
    state: &mut [f64],
    work: &mut [f64],
    frames: &mut [f64],
    budget: u32,
) -> Advanced
    ensures frames_after { after_advance result state.new frames.new ≡ advance_of run state.old work.old frames.old budget }
    ensures work_unchanged { drop (advance_uses run state.old (length work.old) budget) work.new ≡ drop (advance_uses run state.old (length work.old) budget) work.old }
{
    if let Err(refusal) = lent(run.settings, state.len(), work.len()) {
        return Advanced {
            record: run,
            answer: Err(refusal),
        };
    }
    let mut live = Live {
        run,
        count: 0,
        state,
        work,
        frames,
    };
    let answer = live.advance(budget);
    Advanced {
        record: live.run,
        answer,
    }
}

// Whether a begin is refused before the initial state is made.
#[tactic(auto, unfolding(crate::specs::Calls::lent_refusal, crate::specs::Model::frame_count))]
fn begin_verdict(s: Settings, state: usize, work: usize, frames: usize) -> Result<(), Refusal>
    ensures { refusal_of result ≡ lent_refusal s state work frames }
{
    lent(s, state, work)?;
    if !s.skip && frames < frame_size(s) {
        return Err(Refusal::Frames);
    }
    Ok(())
}

// Makes the initial state and its frame.
#[tactic(auto, using(crate::proofs::Refusals::lent_all))]
fn start_run(
    s: Settings,
    state: &mut [f64],
    work: &mut [f64],
    frames: &mut [f64],
) -> Result<Begun, Refusal>
    requires { lent_refusal s (length state.old) (length work.old) (length frames.old) ≡ None }
    ensures frames_after { after_begin result state.new frames.new ≡ begin_of s state.old work.old frames.old }
    ensures work_unchanged { drop (work_count s) work.new ≡ drop (work_count s) work.old }
{
    let time = start_state(s, work);
    if has_nan(s, time, work) {
        return Err(Refusal::InitialNan);
    }
    store_next(s, work, state);
    let run = Record {
        settings: s,
        time,
        steps: 0,
        broken: false,
    };
    if s.skip {
        return Ok(Begun {
            record: run,
            count: 0,
        });
    }
    write_frame(s, time, state, work, frames, 0);
    Ok(Begun {
        record: run,
        count: 1,
    })
}

// Begins a run.
#[tactic(auto, unfolding(crate::specs::Calls::begin_uses))]
pub fn begin(
    settings: Settings,
    state: &mut [f64],
    work: &mut [f64],
    frames: &mut [f64],
) -> Result<Begun, Refusal>
    ensures frames_after { after_begin result state.new frames.new ≡ begin_of settings state.old work.old frames.old }
    ensures work_unchanged { drop (begin_uses settings (length state.old) (length work.old) (length frames.old)) work.new ≡ drop (begin_uses settings (length state.old) (length work.old) (length frames.old)) work.old }
{
    begin_verdict(settings, state.len(), work.len(), frames.len())?;
    start_run(settings, state, work, frames)
}
