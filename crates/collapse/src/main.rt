// Carries out the order on standard input: its lines go to standard output. A read or a write that fails ends the program; standard error says
// which, and a line that was cut has no newline.
#![tactic(auto)]

ghost use Rattle.std.specs.Prelude.{◌≤◌, ◌≡◌, length, take};
ghost use Rattle.program_io.specs.Output.{Sent, CutAfter};
ghost use Rattle.collapse.specs.Turns.{Lent, left_of, end_of, CarriedOut, Answers};
ghost use Rattle.collapse.specs.Input.{Prints};

use program_io::{Failure, read_input, write};
use run::carry_out::{Job, Lines, NoRoom, begin_order, go_on};
use std::io;
use std::io::{Read, Write};

fn main(rt: HostRuntime) -> io::Result<()> {
    match print_answer(&mut rt.stdin(), &mut rt.stdout()) {
        Ok(()) => Ok(()),
        Err(failure) => eprintln!(rt; "collapse: {failure}"),
    }
}

// Reads at most one byte more than an order may have.
fn print_answer<R: Read, W: Write>(input: &mut R, output: &mut W) -> Result<(), Failure>
    ensures { Prints (R.remaining input.old) (W.contents output.old) (W.contents output.new) result }
{
    let mut buffer = [0u8; 4097];
    let filled = read_input(input, &mut buffer)?;
    answer(output, &buffer[..filled.count])
}

// Carries out the order: lends for level 7, 8,192 frame numbers and their lines.
fn answer<W: Write>(output: &mut W, input: &[u8]) -> Result<(), Failure>
    ensures { Answers input.now (W.contents output.old) (W.contents output.new) result }
{
    let mut state = [0.0; 1032];
    let mut work = [0.0; 5160];
    let mut frames = [0.0; 8192];
    let mut out = [0u8; 147520];
    carry_out(output, input, &mut state, &mut work, &mut frames, &mut out)
}

// The whole order, a call at a time.
fn carry_out<W: Write>(
    output: &mut W,
    input: &[u8],
    state: &mut [f64],
    work: &mut [f64],
    frames: &mut [f64],
    out: &mut [u8],
) -> Result<(), Failure>
    requires { Lent (length state.old) (length work.old) (length frames.old) (length out.old) }
    ensures { CarriedOut input.now state.old work.old frames.old out.old state.new frames.new out.new (W.contents output.old) (W.contents output.new) result }
{
    let mut call = begin_order(input, state, work, frames, out);
    send(output, out, call)?;
    while let Some(job) = left_of(call) {
        call = go_on(job, input, state, work, frames, out);
        send(output, out, call)?;
    }
    Ok(())
}

// What a call leaves of the order.
fn left_of(call: Result<Lines, NoRoom>) -> Option<Job>
    ensures { result ≡ left_of call }
{
    call.ok()?.next
}

// Writes the lines of a call.
fn send<W: Write>(output: &mut W, out: &[u8], call: Result<Lines, NoRoom>) -> Result<(), Failure>
    requires { end_of call ≤ length out.now }
    ensures cut { CutAfter (W.contents output.old) (W.contents output.new) (take (end_of call) out.now) result }
    ensures sent { Sent (W.contents output.old) (W.contents output.new) (take (end_of call) out.now) result }
{
    let end = call.map_or(0, |lines| lines.end);
    write(output, &out[..end])
}
