// 01's orders: a command, a whole order or how it is refused, and the budgets of its advances.
ghost use Rattle.std.specs.Prelude.{◌≡◌, ◌+◌, ◌*◌, ◌<◌, ◌≤◌, ◌&&◌, IfOk, IfSome, is_some};
ghost use Rattle.run.specs.Order.{operand_size, switch_of, command_of, command_read_at, noted, command_fault, setting_fault, begin_fault, begun, complete, settings_at, ended, read_order, budget_at};
ghost use Rattle.run.specs.OrderAnswers.{number_of, fault_of, meant_by, told_by, command_read_of, read_of, place_of, advances_of, count_of, so_far, Whole, Noted};

use crate::bytes::{byte_at, float_at, number_at};
use crate::settings::Settings;
use std::num::NonZeroUsize;
use std::ops::ControlFlow;

// What is wrong with an order, by document 01's number.
#[derive(Clone, Copy, Debug, PartialEq, Eq)]
pub enum Fault {
    // An operand runs past the end, or no 09 came.
    Cut = 1,
    // A byte outside 01 to 09, or a switch above 1.
    Unknown,
    // A setting repeated or after 07, a second 07, an 08 before 07, a byte after 09.
    Misplaced,
    // 07 with a setting missing, 09 before 07.
    Missing,
}

impl From<Fault> for u8 {
    ghost from_gives = { λ f n. n ≡ number_of f };

    fn from(fault: Fault) -> u8 {
        fault as u8
    }
}

// One case for each command byte.
#[derive(Clone, Copy)]
pub enum Command {
    Amplitude(f64),
    Level(u8),
    MaxTime(f64),
    Interval(f64),
    DxLevel(u8),
    Skip(bool),
    Begin,
    Advance(u32),
    End,
}

// A command, or what is wrong with it by itself, and the position after its operand.
#[derive(Clone, Copy)]
pub struct CommandRead {
    pub command: Result<Command, Fault>,
    pub next: usize,
}

// Where the operand of each setting stands, where the first command after 07, and how many 08 came.
#[derive(Clone, Copy)]
pub struct Places {
    pub amplitude: usize,
    pub level: usize,
    pub max_time: usize,
    pub interval: usize,
    pub dx_level: usize,
    pub skip: usize,
    pub advances: usize,
    pub count: usize,
}

// What an accepted order says, and where.
#[derive(Clone, Copy)]
pub struct Order {
    pub settings: Settings,
    pub places: Places,
}

// The first fault of an order, and the position that document 01 gives it.
#[derive(Clone, Copy, Debug, PartialEq, Eq)]
pub struct Misread {
    pub fault: Fault,
    pub position: usize,
}

// How many bytes follow the command bytes 00 to 09.
const OPERAND_SIZES: [usize; 10] = [0, 8, 1, 8, 8, 1, 1, 0, 4, 0];

// How many bytes follow a command byte: any byte, as document 01 names commands by theirs.
#[tactic(auto, unfolding(crate::specs::Order::operand_size))]
fn operand_size(code: u8) -> usize
    ensures { result ≡ operand_size code }
{
    OPERAND_SIZES.get(code as usize).copied().unwrap_or(0)
}

// The operand of 06.
#[tactic(auto, unfolding(crate::specs::Order::switch_of))]
fn switch_of(x: u8) -> Result<Command, Fault>
    ensures { told_by result ≡ switch_of x }
{
    if 1 < x {
        return Err(Fault::Unknown);
    }
    Ok(Command::Skip(x == 1))
}

// The command of a byte, any, whose operand starts at `from`. Here 01's numbers become cases.
#[tactic(auto, using(crate::proofs::Orders::other), unfolding(crate::specs::Order::command_of))]
fn command_of(input: &[u8], from: usize, code: u8) -> Result<Command, Fault>
    ensures { told_by result ≡ command_of input.now from code }
{
    match code {
        1 => Ok(Command::Amplitude(float_at(input, from))),
        2 => Ok(Command::Level(byte_at(input, from))),
        3 => Ok(Command::MaxTime(float_at(input, from))),
        4 => Ok(Command::Interval(float_at(input, from))),
        5 => Ok(Command::DxLevel(byte_at(input, from))),
        6 => switch_of(byte_at(input, from)),
        7 => Ok(Command::Begin),
        8 => Ok(Command::Advance(number_at(input, from))),
        9 => Ok(Command::End),
        _ => Err(Fault::Unknown),
    }
}

// The command whose byte stands at `at`. An unknown byte has no operand, so that it is never cut.
pub fn read_command(input: &[u8], at: usize) -> CommandRead
    ensures { command_read_of result ≡ command_read_at input.now at }
{
    let len = input.len();
    if len <= at {
        return CommandRead {
            command: Err(Fault::Cut),
            next: len,
        };
    }
    let code = input[at];
    let from = at + 1;
    let size = operand_size(code);
    if len - from < size {
        return CommandRead {
            command: Err(Fault::Cut),
            next: len,
        };
    }
    CommandRead {
        command: command_of(input, from, code),
        next: from + size,
    }
}

// What came so far: where the operand of each setting stands, and the calls once 07 came. No operand stands at 0.
#[derive(Clone, Copy, Default)]
struct Seen {
    amplitude: Option<NonZeroUsize>,
    level: Option<NonZeroUsize>,
    max_time: Option<NonZeroUsize>,
    interval: Option<NonZeroUsize>,
    dx_level: Option<NonZeroUsize>,
    skip: Option<NonZeroUsize>,
    calls: Option<Calls>,
}

// Where the first command after 07 stands, and how many 08 came.
#[derive(Clone, Copy)]
struct Calls {
    advances: NonZeroUsize,
    count: usize,
}

#[tactic(auto, using(crate::proofs::Orders::came, crate::proofs::Orders::began), unfolding(crate::specs::Order::setting_fault, crate::specs::Order::begin_fault, crate::specs::Order::unless_begun, crate::specs::Order::command_fault, crate::specs::Order::noted, crate::specs::Order::begun, crate::specs::Order::complete))]
impl Seen {
    // With the next command too, `from` the position after its byte; all places if it is 09; or what is wrong with it.
    fn after(
        mut self,
        command: Result<Command, Fault>,
        from: usize,
    ) -> Result<ControlFlow<Places, Seen>, Fault>
        requires count { (so_far self).count < from }
        requires whole { Whole (so_far self) }
        ensures fault { fault_of result ≡ command_fault (so_far self) (told_by command) }
        ensures noted { IfOk result (Noted (so_far self) (told_by command) from) }
    {
        match command? {
            Command::Amplitude(_) => self.amplitude = self.setting(self.amplitude, from)?,
            Command::Level(_) => self.level = self.setting(self.level, from)?,
            Command::MaxTime(_) => self.max_time = self.setting(self.max_time, from)?,
            Command::Interval(_) => self.interval = self.setting(self.interval, from)?,
            Command::DxLevel(_) => self.dx_level = self.setting(self.dx_level, from)?,
            Command::Skip(_) => self.skip = self.setting(self.skip, from)?,
            Command::Begin => self.calls = self.begin(from)?,
            Command::Advance(_) => {
                let mut calls = self.calls.ok_or(Fault::Misplaced)?;
                calls.count += 1;
                self.calls = Some(calls);
            }
            Command::End => {
                let places = self.places().ok_or(Fault::Missing)?;
                return Ok(ControlFlow::Break(places));
            }
        }
        Ok(ControlFlow::Continue(self))
    }

    // The place of a setting's operand, which starts at `from`; `place` is where it stood before.
    fn setting(
        self,
        place: Option<NonZeroUsize>,
        from: usize,
    ) -> Result<Option<NonZeroUsize>, Fault>
        ensures fault { fault_of result ≡ setting_fault (so_far self) (place_of place) }
        ensures place { IfOk result (λ o. place_of o ≡ from) }
    {
        if self.calls.is_some() || place.is_some() {
            return Err(Fault::Misplaced);
        }
        Ok(NonZeroUsize::new(from))
    }

    // The calls after an 07 whose next command stands at `from`.
    fn begin(self, from: usize) -> Result<Option<Calls>, Fault>
        requires { 0 < from }
        ensures fault { fault_of result ≡ begin_fault (so_far self) }
        ensures calls { IfOk result (λ o. (advances_of o ≡ from) × (count_of o ≡ count_of self.calls)) }
    {
        if self.calls.is_some() {
            return Err(Fault::Misplaced);
        }
        if !self.is_complete() {
            return Err(Fault::Missing);
        }
        Ok(NonZeroUsize::new(from).map(|advances| Calls { advances, count: 0 }))
    }

    // Whether all six settings came.
    fn is_complete(self) -> bool
        ensures { result ≡ complete (so_far self) }
    {
        self.amplitude.is_some()
            && self.level.is_some()
            && self.max_time.is_some()
            && self.interval.is_some()
            && self.dx_level.is_some()
            && self.skip.is_some()
    }

    // All places, where all came.
    fn places(self) -> Option<Places>
        ensures some { is_some result ≡ (begun (so_far self) && complete (so_far self)) }
        ensures all { IfSome result (λ p. p ≡ so_far self) }
    {
        let calls = self.calls?;
        Some(Places {
            amplitude: self.amplitude?.get(),
            level: self.level?.get(),
            max_time: self.max_time?.get(),
            interval: self.interval?.get(),
            dx_level: self.dx_level?.get(),
            skip: self.skip?.get(),
            advances: calls.advances.get(),
            count: calls.count,
        })
    }
}

// The operands at these places.
#[tactic(auto, unfolding(crate::specs::Order::settings_at))]
fn settings_at(input: &[u8], p: Places) -> Settings
    ensures { result ≡ settings_at input.now p }
{
    Settings {
        amplitude: float_at(input, p.amplitude),
        level: byte_at(input, p.level) as u32,
        max_time: float_at(input, p.max_time),
        interval: float_at(input, p.interval),
        dx_level: byte_at(input, p.dx_level) as u32,
        skip: byte_at(input, p.skip) == 1,
    }
}

// After 09: `from` is the position after it.
#[tactic(auto, unfolding(crate::specs::Order::ended))]
fn end_order(input: &[u8], from: usize, places: Places) -> Result<Order, Misread>
    ensures { read_of result ≡ ended input.now from places }
{
    if from < input.len() {
        return Err(Misread {
            fault: Fault::Misplaced,
            position: from,
        });
    }
    Ok(Order {
        settings: settings_at(input, places),
        places,
    })
}

// The whole order, or how it is refused.
pub fn read_order(input: &[u8]) -> Result<Order, Misread>
    ensures { read_of result ≡ read_order input.now }
{
    let mut seen = Seen::default();
    let mut at = 0;
    while at < input.len() {
        let from = at + 1;
        let read = read_command(input, at);
        match seen.after(read.command, from) {
            Ok(ControlFlow::Continue(next)) => seen = next,
            Ok(ControlFlow::Break(places)) => return end_order(input, from, places),
            Err(fault) => {
                return Err(Misread {
                    fault,
                    position: at,
                });
            }
        }
        at = read.next;
    }
    Err(Misread {
        fault: Fault::Cut,
        position: input.len(),
    })
}

// The budget of the 08 number `k`, from 0, of those that start at `advances`.
pub fn nth_budget(input: &[u8], advances: usize, k: usize) -> u32
    ensures { result ≡ budget_at input.now advances k }
{
    let len = input.len();
    if len <= advances {
        return 0;
    }
    if (len - advances) / 5 < k {
        return 0;
    }
    number_at(input, advances + 5 * k + 1)
}
