// What a call answers: its number, and its record laid out in the slice unless it was refused.
ghost use Rattle.std.specs.Prelude.{◌≡◌, ◌≤◌, length};
ghost use Rattle.run.specs.Answers.{reply_of, began_of};
ghost use Rattle.run.specs.Refusal.{number_of};
ghost use Rattle.capi.specs.Told.{told, told_of, told_slice, began_number, began_slice};

use crate::layout::{LastCall, RECORD_LENGTH, laid_out};
use run::outcome::Outcome;
use run::refusal::Refusal;
use run::simulate::{Advanced, Answer, Begun};

// The numbers of our own; every other is document 01's. Numbers and no enum, since C's callers read them (include/collapse.h).
pub(crate) const NO_RECORD: u32 = 101;

const FULL: u32 = 110;

const COLLAPSE: u32 = 111;

const BROKEN: u32 = 112;

const TIMEOUT: u32 = 113;

const SPENT: u32 = 114;

// An advance's number, and what is laid out beside its record unless it was refused.
#[derive(Clone, Copy)]
pub(crate) struct Told {
    pub number: u32,
    pub last: Option<LastCall>,
}

fn refusal_number(refusal: Refusal) -> u32
    ensures { result ≡ number_of refusal }
{
    u32::from(u8::from(refusal))
}

// What an answer that lays a record out tells, from its parts.
fn tells(number: u32, frames: usize, attempts: u32, mass: f64) -> Told
    ensures { result ≡ told number frames attempts mass }
{
    Told {
        number,
        last: Some(LastCall {
            frames,
            attempts,
            mass,
        }),
    }
}

// What each answer tells.
#[tactic(auto, unfolding(crate::specs::Told::told_of))]
fn told_of(answer: Result<Answer, Refusal>) -> Told
    ensures { result ≡ told_of (reply_of answer) }
{
    match answer {
        Err(refusal) => Told {
            number: refusal_number(refusal),
            last: None,
        },
        Ok(Answer::Full(made, count)) => tells(FULL, count, made, 0.0),
        Ok(Answer::Ran(Outcome::Collapse(mass), count)) => tells(COLLAPSE, count, 0, mass),
        Ok(Answer::Ran(Outcome::Broken, count)) => tells(BROKEN, count, 0, 0.0),
        Ok(Answer::Ran(Outcome::Timeout, count)) => tells(TIMEOUT, count, 0, 0.0),
        Ok(Answer::Ran(Outcome::Spent, count)) => tells(SPENT, count, 0, 0.0),
    }
}

// An advance's number, its record laid out unless it was refused.
#[tactic(auto, unfolding(crate::specs::Told::told_slice, vectors::specs::Memory::put))]
pub(crate) fn tell_advanced(advanced: Advanced, numbers: &mut [f64]) -> u32
    requires { 12 ≤ length numbers.old }
    ensures { (result ≡ (told_of (reply_of advanced.answer)).number)
        × (numbers.new ≡ told_slice (told_of (reply_of advanced.answer)) advanced.record numbers.old) }
{
    let told = told_of(advanced.answer);
    if let Some(last) = told.last {
        numbers[..RECORD_LENGTH].copy_from_slice(&laid_out(advanced.record, last));
    }
    told.number
}

// A begin's number, its record laid out unless it was refused.
#[tactic(auto, unfolding(crate::specs::Told::began_number, crate::specs::Told::began_slice, vectors::specs::Memory::put))]
pub(crate) fn tell_begun(begun: Result<Begun, Refusal>, numbers: &mut [f64]) -> u32
    requires { 12 ≤ length numbers.old }
    ensures { (result ≡ began_number (began_of begun)) × (numbers.new ≡ began_slice (began_of begun) numbers.old) }
{
    match begun {
        Err(refusal) => refusal_number(refusal),
        Ok(begun) => {
            let last = LastCall {
                frames: begun.count,
                attempts: 0,
                mass: 0.0,
            };
            numbers[..RECORD_LENGTH].copy_from_slice(&laid_out(begun.record, last));
            0
        }
    }
}
