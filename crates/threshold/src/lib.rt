// The threshold amplitude of collapse, bracketed by halving.
#![tactic(auto)]

ghost use Rattle.std.specs.Prelude.{◌≡◌, ◌+◌, ◌*◌, ◌<◌};
ghost use Rattle.run.specs.Answers.{ran_of};
ghost use Rattle.run.specs.SkipRun.{SkipRan};
ghost use Rattle.threshold.specs.Search.{unit40, amplitude_at, Ends, Halved, Found, SearchDone};
ghost use Rattle.threshold.specs.Answers.{why_of, bracket_of, searched_of};
ghost use Rattle.threshold.specs.Halving.{stop};

mod ends;
pub mod refusal;

use crate::ends::{Side, ends_verdict, high_budget, side_of};
use crate::refusal::Refusal;
use run::settings::Settings;
use run::skip_run::{Ended, NotRun, skip_run};

// 2^-40.
const UNIT: f64 = 9.094947017729282379150390625e-13;

// 2^42.
const MOST_UNITS: u64 = 4398046511104;

const MOST_HALVINGS: u32 = 40;

// Why a search stopped.
#[derive(Clone, Copy)]
pub enum Why {
    Used,
    Adjacent,
    Neither,
    Refused(run::refusal::Refusal),
}

// Both ends, the halvings made, and why the search stopped.
#[derive(Clone, Copy)]
pub struct Bracket {
    pub low: u64,
    pub high: u64,
    pub made: u32,
    pub why: Why,
}

// The runs of a search: their settings but for the amplitude, the unit of amplitudes, the budget of each.
#[derive(Clone, Copy)]
struct Runs {
    unit: f64,
    settings: Settings,
    budget: u32,
}

// So many units.
fn amplitude_at(unit: f64, units: u64) -> f64
    ensures { result ≡ amplitude_at unit units }
{
    std::num::nearest_u64_to_f64(units) * unit
}

// The run at so many units. State and work memory stay parameters beside `Runs`: in it each contract would say more, that it holds the same memories.
fn run_at(runs: Runs, units: u64, state: &mut [f64], work: &mut [f64]) -> Result<Ended, NotRun>
    ensures { SkipRan runs.settings (amplitude_at runs.unit units) runs.budget state.old work.old (ran_of result) state.new work.new }
{
    let amplitude = amplitude_at(runs.unit, units);
    skip_run(runs.settings, amplitude, runs.budget, state, work)
}

// Searches the half that remains, with so many halvings left.
fn halve(
    runs: Runs,
    low: u64,
    high: u64,
    left: u32,
    made: u32,
    state: &mut [f64],
    work: &mut [f64],
) -> Bracket
    requires { Ends low high left made }
    ensures { Halved runs.unit runs.settings low high left made runs.budget state.old work.old (bracket_of result) state.new work.new }
{
    let stopped = |made: u32, why: Why| -> Bracket
        ensures { bracket_of result ≡ stop low high made (why_of why) }
    {
        Bracket {
            low,
            high,
            made,
            why,
        }
    };
    if left == 0 {
        return stopped(made, Why::Used);
    }
    if high - low == 1 {
        return stopped(made, Why::Adjacent);
    }
    let middle = (low + high) / 2;
    match side_of(run_at(runs, middle, state, work)) {
        Ok(Side::Timeout) => halve(runs, middle, high, left - 1, made + 1, state, work),
        Ok(Side::Collapse) => halve(runs, low, middle, left - 1, made + 1, state, work),
        Ok(Side::Neither) => stopped(made, Why::Neither),
        Err(refusal) => stopped(made, Why::Refused(refusal)),
    }
}

// The bracket between two ends that may be asked for.
fn bracketed(
    runs: Runs,
    low: u64,
    high: u64,
    halvings: u32,
    state: &mut [f64],
    work: &mut [f64],
) -> Result<Bracket, Refusal>
    requires { Ends low high halvings 0 }
    ensures { Found runs.unit runs.settings low high halvings runs.budget state.old work.old (searched_of result) state.new work.new }
{
    let at_low = run_at(runs, low, state, work);
    let runs_high = Runs {
        budget: high_budget(at_low, runs.budget),
        ..runs
    };
    let at_high = run_at(runs_high, high, state, work);
    ends_verdict(at_low, at_high)?;
    Ok(halve(runs, low, high, halvings, 0, state, work))
}

// The bracket between two ends, in units of `unit`. The memories are lent one by one, as capi has them.
pub fn search_in(
    unit: f64,
    s: Settings,
    low: u64,
    high: u64,
    halvings: u32,
    budget: u32,
    state: &mut [f64],
    work: &mut [f64],
) -> Result<Bracket, Refusal>
    ensures { SearchDone unit s low high halvings budget state.old work.old (searched_of result) state.new work.new }
{
    if high <= low || high > MOST_UNITS || halvings > MOST_HALVINGS {
        return Err(Refusal::Ends);
    }
    let runs = Runs {
        unit,
        settings: s,
        budget,
    };
    bracketed(runs, low, high, halvings, state, work)
}

// The bracket between two ends, in units of 2^-40.
pub fn search(
    s: Settings,
    low: u64,
    high: u64,
    halvings: u32,
    budget: u32,
    state: &mut [f64],
    work: &mut [f64],
) -> Result<Bracket, Refusal>
    ensures { SearchDone unit40 s low high halvings budget state.old work.old (searched_of result) state.new work.new }
{
    search_in(UNIT, s, low, high, halvings, budget, state, work)
}
