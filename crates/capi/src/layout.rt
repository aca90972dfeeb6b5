// The record in its slice: which settings and which record it holds, and how a record and an answer are laid out in it.
ghost use Rattle.std.specs.Prelude.{◌≡◌, length};
ghost use Rattle.capi.specs.Layout.{settings_in, record_in, laid_out};

use crate::numbers::{switch_in, whole_in};
use run::settings::{Record, Settings};
use std::num::nearest_usize_to_f64;

// How many numbers there are.
pub(crate) const RECORD_LENGTH: usize = 12;

// What the last call answered beside its number: the frames written, full's attempts, collapse's mass.
#[derive(Clone, Copy)]
pub(crate) struct LastCall {
    pub frames: usize,
    pub attempts: u32,
    pub mass: f64,
}

// The settings in a record's slice.
#[tactic(auto, unfolding(crate::specs::Layout::settings_in, crate::specs::Layout::settings_of))]
pub(crate) fn settings_in(numbers: &[f64]) -> Option<Settings>
    ensures { result ≡ settings_in numbers.now }
{
    let record = numbers.first_chunk::<RECORD_LENGTH>()?;
    let [amplitude, level, max_time, interval, dx_level, skip, ..] = *record;
    Some(Settings {
        amplitude,
        level: whole_in(level)?,
        max_time,
        interval,
        dx_level: whole_in(dx_level)?,
        skip: switch_in(skip)?,
    })
}

// The record in its slice.
#[tactic(auto, unfolding(crate::specs::Layout::settings_in, crate::specs::Layout::record_in, crate::specs::Layout::record_of))]
pub(crate) fn record_in(numbers: &[f64]) -> Option<Record>
    ensures { result ≡ record_in numbers.now }
{
    let record = numbers.first_chunk::<RECORD_LENGTH>()?;
    let [_, _, _, _, _, _, time, steps, broken, ..] = *record;
    Some(Record {
        settings: settings_in(numbers)?,
        time,
        steps: whole_in(steps)?,
        broken: switch_in(broken)?,
    })
}

// The numbers of a record and of what the call that left it answered.
#[tactic(auto, using(crate::specs::NumbersLaws::bit_is), unfolding(crate::specs::Layout::laid_out, crate::specs::Layout::settings_out, crate::specs::Layout::progress_out))]
pub(crate) fn laid_out(run: Record, last: LastCall) -> [f64; RECORD_LENGTH]
    ensures value { result ≡ laid_out run last.frames last.attempts last.mass }
    ensures len { length result ≡ 12 }
{
    let settings = run.settings;
    [
        settings.amplitude,
        f64::from(settings.level),
        settings.max_time,
        settings.interval,
        f64::from(settings.dx_level),
        f64::from(settings.skip),
        run.time,
        f64::from(run.steps),
        f64::from(run.broken),
        nearest_usize_to_f64(last.frames),
        f64::from(last.attempts),
        last.mass,
    ]
}
