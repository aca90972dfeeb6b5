// An order carried out a call at a time: what the program does between reading and printing. Each call writes its lines into lent bytes.
ghost use Rattle.std.specs.Prelude.{◌≡◌, ◌+◌, ◌*◌, ◌≤◌, map, length, drop};
ghost use Rattle.vectors.specs.Memory.{put};
ghost use Rattle.run.specs.Model.{frame_count};
ghost use Rattle.run.specs.Tally.{ran};
ghost use Rattle.run.specs.Calls.{frames_in, frames_told};
ghost use Rattle.run.specs.Answers.{reply_of};
ghost use Rattle.run.specs.Lines.{frame, outcome, texts_of, reply_lines};
ghost use Rattle.run.specs.LinesLaws.{Long};
ghost use Rattle.run.specs.Outcome.{meant_by};
ghost use Rattle.run.specs.Written.{Room, Written};
ghost use Rattle.run.specs.CarryOut.{advance_at, left_after, after_carried, has_room, room_for, Fits, go_on_of, go_on_uses, begin_order_of, begin_order_uses};

use crate::order::{nth_budget, read_order};
use crate::settings::{Record, Settings};
use crate::simulate::{Advanced, Answer, advance, begin};
use crate::state_output_builder::frame_size;
use crate::writer::Writer;

// The longest order that is read.
const LONGEST_ORDER: usize = 4096;

// Document 01's number for a longer one.
const LONGER: u8 = 8;

// What is left of an order: its run, what is left of the budget of the advance with this index, where the first advance stands, and how many
// there are.
#[derive(Clone, Copy)]
pub struct Job {
    pub run: Record,
    pub rest: u32,
    pub advances: usize,
    pub index: usize,
    pub count: usize,
}

// What a call leaves: where its lines end, and what is left of the order.
#[derive(Clone, Copy)]
pub struct Lines {
    pub end: usize,
    pub next: Option<Job>,
}

// Too little room for the lines of a call: nothing was called and nothing written.
#[derive(Clone, Copy, Debug, PartialEq, Eq)]
pub struct NoRoom;

// Checks the whole order and begins its run. The memories are lent one by one, here and below: a struct of them would be made anew for each call,
// since each goes back to the caller.
#[tactic(auto, unfolding(crate::specs::CarryOut::begin_order_of, crate::specs::CarryOut::begin_order_uses))]
pub fn begin_order(
    input: &[u8],
    state: &mut [f64],
    work: &mut [f64],
    frames: &mut [f64],
    out: &mut [u8],
) -> Result<Lines, NoRoom>
    ensures out_after { after_carried result state.new frames.new out.new ≡ begin_order_of input.now state.old work.old frames.old out.old }
    ensures work_unchanged { drop (begin_order_uses input.now (length state.old) (length work.old) (length frames.old) (length out.old)) work.new ≡ drop (begin_order_uses input.now (length state.old) (length work.old) (length frames.old) (length out.old)) work.old }
{
    if !has_room(frames.len(), out.len()) {
        return Err(NoRoom);
    }
    let mut w = Writer { out, at: 0 };
    let next = begin_lines(input, state, work, frames, &mut w);
    Ok(Lines { end: w.at, next })
}

// Goes on with an order: one call of advance.
#[tactic(auto, unfolding(crate::specs::CarryOut::go_on_of, crate::specs::CarryOut::go_on_uses))]
pub fn go_on(
    job: Job,
    input: &[u8],
    state: &mut [f64],
    work: &mut [f64],
    frames: &mut [f64],
    out: &mut [u8],
) -> Result<Lines, NoRoom>
    ensures out_after { after_carried result state.new frames.new out.new ≡ go_on_of job input.now state.old work.old frames.old out.old }
    ensures work_unchanged { drop (go_on_uses job state.old (length work.old) (length frames.old) (length out.old)) work.new ≡ drop (go_on_uses job state.old (length work.old) (length frames.old) (length out.old)) work.old }
{
    if !has_room(frames.len(), out.len()) {
        return Err(NoRoom);
    }
    let done = advance(job.run, state, work, frames, job.rest);
    let mut w = Writer { out, at: 0 };
    w.reply(frames, done);
    Ok(Lines {
        end: w.at,
        next: left_after(input, job, done),
    })
}

// The lines of the begin of an order, from the first byte on; answers what is left of it.
#[tactic(auto, unfolding(crate::specs::CarryOut::begin_order_of, crate::specs::CarryOut::begin_order_uses, crate::specs::Model::frame_count))]
fn begin_lines(
    input: &[u8],
    state: &mut [f64],
    work: &mut [f64],
    frames: &mut [f64],
    w: &mut Writer<'_, u8>,
) -> Option<Job>
    requires first { w.old.at ≡ 0 }
    requires room { room_for (length frames.old) ≤ length w.old.out.now }
    ensures memory { w.new.out.ghost_name ≡ w.old.out.ghost_name }
    ensures out_after { after_carried (Ok (record { end = w.new.at; next = result })) state.new frames.new w.new.out.now ≡ begin_order_of input.now state.old work.old frames.old w.old.out.now }
    ensures work_unchanged { drop (begin_order_uses input.now (length state.old) (length work.old) (length frames.old) (length w.old.out.now)) work.new ≡ drop (begin_order_uses input.now (length state.old) (length work.old) (length frames.old) (length w.old.out.now)) work.old }
{
    if input.len() > LONGEST_ORDER {
        w.refusal(LONGER);
        return None;
    }
    let order = match read_order(input) {
        Ok(order) => order,
        Err(misread) => {
            w.refusal_at(misread.fault.into(), misread.position);
            return None;
        }
    };
    match begin(order.settings, state, work, frames) {
        Ok(begun) => {
            w.frames(frames, begun.count, frame_size(begun.record.settings));
            let places = order.places;
            advance_at(input, begun.record, places.advances, 0, places.count)
        }
        Err(refusal) => {
            w.refusal(refusal.into());
            None
        }
    }
}

// Whether there is room for the lines of any call.
fn has_room(frames: usize, out: usize) -> bool
    ensures { result ≡ has_room frames out }
{
    64 <= out && frames <= (out - 64) / 18
}

// The advance with this index, if there is one.
#[tactic(auto, unfolding(crate::specs::CarryOut::advance_at))]
fn advance_at(input: &[u8], run: Record, advances: usize, index: usize, count: usize) -> Option<Job>
    ensures { result ≡ advance_at input.now run advances index count }
{
    if index < count {
        return Some(Job {
            run,
            rest: nth_budget(input, advances, index),
            advances,
            index,
            count,
        });
    }
    None
}

// The advance after this job's.
#[tactic(auto, unfolding(crate::specs::CarryOut::advance_at))]
fn next_advance(input: &[u8], job: Job, run: Record) -> Option<Job>
    ensures { result ≡ advance_at input.now run job.advances (job.index + 1) job.count }
{
    if job.index < job.count {
        return advance_at(input, run, job.advances, job.index + 1, job.count);
    }
    None
}

// What is left of a job when its advance has answered: after full the rest of the budget.
#[tactic(auto, unfolding(crate::specs::CarryOut::left_after))]
fn left_after(input: &[u8], job: Job, done: Advanced) -> Option<Job>
    requires { Fits job (reply_of done.answer) }
    ensures { result ≡ left_after input.now job done.record (reply_of done.answer) }
{
    if let Ok(Answer::Full(made, _)) = done.answer {
        return Some(Job {
            run: done.record,
            rest: job.rest - made,
            ..job
        });
    }
    next_advance(input, job, done.record)
}

impl Writer<'_, u8> {
    // The lines of an advance.
    #[tactic(auto, using(crate::specs::Written::wider), unfolding(crate::specs::Model::frame_count, crate::specs::Calls::frames_told, crate::specs::Lines::reply_lines))]
    fn reply(&mut self, frames: &[f64], done: Advanced)
        requires room { Room (room_for (length frames.now)) self.old }
        requires settings_in_bounds { frames_told (reply_of done.answer) * frame_count done.record.settings ≤ length frames.now }
        requires long { Long (frame_count done.record.settings) (reply_of done.answer) }
        ensures { Written (room_for (length frames.now)) (texts_of (reply_lines (frames_in (frames_told (reply_of done.answer)) (frame_count done.record.settings) frames.now) done.record.steps done.record.time (reply_of done.answer))) self.old self.new }
    {
        let run = done.record;
        match done.answer {
            Err(refusal) => self.refusal(refusal.into()),
            Ok(Answer::Full(_, count)) => self.frames(frames, count, frame_size(run.settings)),
            Ok(Answer::Ran(outcome, count)) => {
                self.frames(frames, count, frame_size(run.settings));
                self.outcome(outcome, run.steps, run.time);
            }
        }
    }

    // The lines of the first frames of this size.
    fn frames(&mut self, frames: &[f64], count: usize, size: usize)
        requires room { Room (18 * length frames.now) self.old }
        requires size_in_bounds { count * size ≤ length frames.now }
        requires le_size { 6 ≤ size }
        ensures { Written (18 * length frames.now) (texts_of (map frame (frames_in count size frames.now))) self.old self.new }
    {
        for frame in frames.chunks_exact(size).take(count) {
            self.frame(frame);
        }
    }
}
