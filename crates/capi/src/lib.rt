// Runs, searches and spellings for C, Rust and Python to link: begin and advance of the crate run, the search of the crate
// threshold and the writer of the crate order_forms, over plain numbers, pointers to one number, and slices, each a pointer
// and then a length. include/collapse.h names every function and number.
#![tactic(auto)]

ghost use Rattle.std.specs.Prelude.{◌≡◌, length, drop};
ghost use Rattle.run.specs.Frames.{frame_size_at};
ghost use Rattle.capi.specs.Sizes.{state_size_of, work_size_of};
ghost use Rattle.run.specs.Model.{cell_count, work_count};
ghost use Rattle.capi.specs.SearchCall.{after_search, search_call, search_call_touched};
ghost use Rattle.capi.specs.SpellCall.{after_spell, spell_call};
ghost use Rattle.capi.specs.Told.{after_call, begin_call, begin_call_uses, advance_call, advance_call_uses};

mod found;
mod layout;
mod numbers;
mod spelled;
mod told;

use crate::found::{BRACKET_LENGTH, SHORT_RESULT, tell_searched};
use crate::layout::{record_in, settings_in};
use crate::spelled::tell_spelled;
use crate::told::{NO_RECORD, tell_advanced, tell_begun};
use order_forms::spelling::spell;
use physics::state::{state_size, work_size};
use run::settings::Settings;
use run::simulate::{advance, begin};
use run::state_output_builder::frame_size;
use threshold::search_in;

// How many numbers of state memory a level wants; 0 for a level outside 5 to 16.
#[unsafe(no_mangle)]
#[tactic(auto, unfolding(crate::specs::Sizes::state_size_of))]
pub extern "C" fn collapse_state_size(level: u32) -> usize
    ensures { result ≡ state_size_of level }
{
    state_size(level)
}

// How many numbers of work memory a level wants; 0 for a level outside 5 to 16.
#[unsafe(no_mangle)]
#[tactic(auto, unfolding(crate::specs::Sizes::work_size_of))]
pub extern "C" fn collapse_work_size(level: u32) -> usize
    ensures { result ≡ work_size_of level }
{
    work_size(level)
}

// How many numbers a frame has; 0 for a dx level above 16.
#[unsafe(no_mangle)]
pub extern "C" fn collapse_frame_size(dx_level: u32) -> usize
    ensures { result ≡ frame_size_at dx_level }
{
    frame_size(Settings {
        amplitude: 0.0,
        level: 16,
        max_time: 0.0,
        interval: 1.0,
        dx_level,
        skip: false,
    })
}

// Begins the run whose settings a record's slice holds. The parameters, here and below, are those of the C functions.
#[unsafe(no_mangle)]
#[tactic(auto, using(crate::specs::LayoutLaws::settings_long), unfolding(crate::specs::Told::begin_call, crate::specs::Told::began_call, crate::specs::Told::no_record, crate::specs::Told::begin_call_uses))]
pub extern "C" fn collapse_begin(
    numbers: &mut [f64],
    state: &mut [f64],
    work: &mut [f64],
    frames: &mut [f64],
) -> u32
    ensures frames_after { after_call result numbers.new state.new frames.new ≡ begin_call numbers.old state.old work.old frames.old }
    ensures work_unchanged { drop (begin_call_uses numbers.old (length state.old) (length work.old) (length frames.old)) work.new ≡ drop (begin_call_uses numbers.old (length state.old) (length work.old) (length frames.old)) work.old }
{
    let Some(settings) = settings_in(numbers) else {
        return NO_RECORD;
    };
    let begun = begin(settings, state, work, frames);
    tell_begun(begun, numbers)
}

// Goes on with the run whose record a slice holds, by at most so many attempts.
#[unsafe(no_mangle)]
#[tactic(auto, using(crate::specs::LayoutLaws::record_long), unfolding(crate::specs::Told::advance_call, crate::specs::Told::advanced_call, crate::specs::Told::no_record, crate::specs::Told::advance_call_uses))]
pub extern "C" fn collapse_advance(
    numbers: &mut [f64],
    state: &mut [f64],
    work: &mut [f64],
    frames: &mut [f64],
    budget: u32,
) -> u32
    ensures frames_after { after_call result numbers.new state.new frames.new ≡ advance_call numbers.old state.old work.old frames.old budget }
    ensures work_unchanged { drop (advance_call_uses numbers.old state.old (length work.old) budget) work.new ≡ drop (advance_call_uses numbers.old state.old (length work.old) budget) work.old }
{
    let Some(run) = record_in(numbers) else {
        return NO_RECORD;
    };
    let advanced = advance(run, state, work, frames, budget);
    tell_advanced(advanced, numbers)
}

// Brackets the threshold amplitude of the settings that a record's slice holds, between two ends in units of `unit`.
#[unsafe(no_mangle)]
#[tactic(auto, unfolding(crate::specs::SearchCall::search_call, crate::specs::SearchCall::search_call_touched))]
pub extern "C" fn collapse_search(
    numbers: &[f64],
    unit: f64,
    low: u64,
    high: u64,
    halvings: u32,
    budget: u32,
    state: &mut [f64],
    work: &mut [f64],
    res: &mut [f64],
) -> u32
    ensures res_after { after_search result res.new ≡ search_call numbers.now low high halvings unit budget (length state.old) (length work.old) res.old }
    ensures state_unchanged { drop (search_call_touched numbers.now low high halvings (length state.old) (length work.old) (length res.old) cell_count) state.new ≡ drop (search_call_touched numbers.now low high halvings (length state.old) (length work.old) (length res.old) cell_count) state.old }
    ensures work_unchanged { drop (search_call_touched numbers.now low high halvings (length state.old) (length work.old) (length res.old) work_count) work.new ≡ drop (search_call_touched numbers.now low high halvings (length state.old) (length work.old) (length res.old) work_count) work.old }
{
    let Some(settings) = settings_in(numbers) else {
        return NO_RECORD;
    };
    if res.len() < BRACKET_LENGTH {
        return SHORT_RESULT;
    }
    let searched = search_in(unit, settings, low, high, halvings, budget, state, work);
    tell_searched(searched, res)
}

// Writes an order's one spelling into lent bytes, or tells why not and, for 1 to 4, where.
#[unsafe(no_mangle)]
#[tactic(auto, unfolding(crate::specs::SpellCall::spell_call, crate::specs::SpellCall::spelled_call))]
pub extern "C" fn collapse_spell(order: &[u8], out: &mut [u8], position: &mut usize) -> u32
    ensures { after_spell result out.new position.new ≡ spell_call order.now out.old position.old }
{
    let spelled = spell(order, out);
    tell_spelled(spelled, position)
}
