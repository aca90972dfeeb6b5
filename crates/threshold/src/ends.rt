// What the runs at the two ends of a search say of it.
ghost use Rattle.std.specs.Prelude.{◌≡◌, if◌then◌else◌};
ghost use Rattle.run.specs.Answers.{ran_of};
ghost use Rattle.run.specs.Refusal as run;
ghost use Rattle.threshold.specs.Search.{side_of, is_timeout, begun_refusal, ends_refusal};
ghost use Rattle.threshold.specs.Answers.{side_is};
ghost use Rattle.threshold.specs.Refusal.{refusal_of};

use crate::refusal::Refusal;
use run::outcome::Outcome;
use run::skip_run::{Ended, NotRun};

// What a run that is not refused answers to a search.
#[derive(Clone, Copy, Debug, PartialEq, Eq)]
pub(crate) enum Side {
    Timeout,
    Collapse,
    Neither,
}

pub(crate) fn side_of(ran: Result<Ended, NotRun>) -> Result<Side, run::refusal::Refusal>
    ensures { side_is result ≡ side_of (ran_of ran) }
{
    Ok(match ran?.outcome {
        Outcome::Collapse(_) => Side::Collapse,
        Outcome::Timeout => Side::Timeout,
        Outcome::Broken | Outcome::Spent => Side::Neither,
    })
}

// The budget for the run at the high end: none where low's run is not timeout, for then it need only be begun.
pub(crate) fn high_budget(low: Result<Ended, NotRun>, budget: u32) -> u32
    ensures { result ≡ (if is_timeout (side_of (ran_of low)) then budget else 0) }
{
    if side_of(low) == Ok(Side::Timeout) {
        return budget;
    }
    0
}

// Whether begin refused.
fn begin_verdict(ran: Result<Ended, NotRun>) -> Result<(), run::refusal::Refusal>
    ensures { run.refusal_of result ≡ begun_refusal (ran_of ran) }
{
    match ran {
        Err(NotRun::Begin(refusal)) => Err(refusal),
        _ => Ok(()),
    }
}

// Whether the ends are refused by what their runs answer: by begin at low, then at high, then by their sides.
#[tactic(auto, unfolding(crate::specs::Search::ends_refusal))]
pub(crate) fn ends_verdict(
    low: Result<Ended, NotRun>,
    high: Result<Ended, NotRun>,
) -> Result<(), Refusal>
    ensures { refusal_of result ≡ ends_refusal (ran_of low) (ran_of high) }
{
    begin_verdict(low)?;
    begin_verdict(high)?;
    if side_of(low) == Ok(Side::Timeout) && side_of(high) == Ok(Side::Collapse) {
        return Ok(());
    }
    Err(Refusal::Sides)
}
