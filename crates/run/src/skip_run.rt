// A skip run by one begin and one advance, with no frame memory.
ghost use Rattle.std.specs.Prelude.{◌≡◌};
ghost use Rattle.run.specs.Answers.{refusal_by, reply_of, ran_of};
ghost use Rattle.run.specs.SkipRun.{ran_by, SkipRan};

use crate::outcome::Outcome;
use crate::refusal::Refusal;
use crate::settings::Settings;
use crate::simulate::{Advanced, Answer, advance, begin};

// How a run stands after its budget.
#[derive(Clone, Copy)]
pub struct Ended {
    pub outcome: Outcome,
    pub steps: u32,
    pub time: f64,
}

// Which call refused a run, and why.
#[derive(Clone, Copy, Debug, PartialEq, Eq)]
pub enum NotRun {
    Begin(Refusal),
    Advance(Refusal),
}

impl From<NotRun> for Refusal {
    ghost from_gives = { λ n r. r ≡ refusal_by n };

    fn from(not_run: NotRun) -> Refusal {
        match not_run {
            NotRun::Begin(refusal) => refusal,
            NotRun::Advance(refusal) => refusal,
        }
    }
}

// What an advance told. With skip it is never full.
fn told(advanced: Advanced) -> Result<Ended, NotRun>
    ensures { ran_of result ≡ ran_by (reply_of advanced.answer) advanced.record }
{
    let outcome = match advanced.answer.map_err(NotRun::Advance)? {
        Answer::Full(_, _) => Outcome::Spent,
        Answer::Ran(outcome, _) => outcome,
    };
    Ok(Ended {
        outcome,
        steps: advanced.record.steps,
        time: advanced.record.time,
    })
}

// The run of these settings at this amplitude, in the caller's memories, lent one by one as in simulate.rt.
pub fn skip_run(
    s: Settings,
    amplitude: f64,
    budget: u32,
    state: &mut [f64],
    work: &mut [f64],
) -> Result<Ended, NotRun>
    ensures { SkipRan s amplitude budget state.old work.old (ran_of result) state.new work.new }
{
    let at = Settings {
        amplitude,
        skip: true,
        ..s
    };
    let mut none = [0.0; 0];
    let begun = begin(at, state, work, &mut none).map_err(NotRun::Begin)?;
    told(advance(begun.record, state, work, &mut none, budget))
}
