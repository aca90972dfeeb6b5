// What the programs read and write with.
#![tactic(auto)]

ghost use Rattle.program_io.specs.Input.{Counted};
ghost use Rattle.program_io.specs.Output.{Sent, CutAfter};

use std::io::{Cursor, Read, Write};
use std::{fmt, io, str};

// Why a program ends early.
#[derive(Clone, Copy, Debug)]
pub enum Failure {
    Input(io::Error),
    Output(Cut),
}

// How far a text was written: so many bytes, after which a write took this many more, none; and why.
#[derive(Clone, Copy, Debug)]
pub struct Cut {
    pub done: usize,
    pub taken: usize,
    pub error: io::Error,
}

// How far a buffer was filled: so many bytes, of which the last read gave this many, none where the input ended.
#[derive(Clone, Copy, Debug)]
pub struct Filled {
    pub count: usize,
    pub last: usize,
}

// Which stream failed, and why in the system's words, without the number that `{error}` adds.
impl fmt::Display for Failure {
    fn fmt<W: fmt::Write>(&self, f: &mut fmt::Formatter<W>) -> fmt::Result {
        let (stream, error) = match self {
            Failure::Input(error) => ("standard input", error),
            Failure::Output(cut) => ("standard output", &cut.error),
        };
        let mut text = Cursor::new([0u8; 256]);
        write!(text, "{error}").map_err(|_| fmt::Error)?;
        let bytes = text.into_inner();
        let text = str::from_utf8(&bytes).unwrap_or("");
        match text.split_once(" (os error ") {
            Some((words, _)) => write!(f, "{stream}: {words}"),
            None => write!(f, "{stream}: {error}"),
        }
    }
}

// Fills the buffer as far as the input goes, and answers how far. A call that a signal interrupts has failed.
// The loop stays: that an interrupted call has failed is a rule of the project (docs/DECISIONS.md), and `read_exact` makes the call again. It does
// not say either how far a short input went.
pub fn read_input<R: Read>(input: &mut R, buffer: &mut [u8]) -> Result<Filled, Failure>
    ensures { Counted (R.remaining input.old) (R.remaining input.new) buffer.new result }
{
    let mut count = 0;
    let mut last = 0;
    while count < buffer.len() {
        match input.read(&mut buffer[count..]) {
            Ok(more) if more == 0 => return Ok(Filled { count, last: more }),
            Ok(more) => (count, last) = (count + more, more),
            Err(error) => return Err(Failure::Input(error)),
        }
    }
    Ok(Filled { count, last })
}

// Writes the whole text. Where the output takes nothing of the rest, the error is that of errno 0, "Success". A call that fails takes nothing.
// The loop stays, by the same rule: `write_all` makes an interrupted call again, and says other words where nothing is taken.
pub fn write<W: Write>(output: &mut W, text: &[u8]) -> Result<(), Failure>
    ensures cut { CutAfter (W.contents output.old) (W.contents output.new) text.now result }
    ensures sent { Sent (W.contents output.old) (W.contents output.new) text.now result }
{
    let mut rest = text;
    while !rest.is_empty() {
        let done = text.len() - rest.len();
        let cut = |taken, error| Failure::Output(Cut { done, taken, error });
        match output.write(rest) {
            Ok(taken) if taken == 0 => return Err(cut(taken, io::Error::from_raw_os_error(0))),
            Ok(taken) => rest = &rest[taken..],
            Err(error) => return Err(cut(0, error)),
        }
    }
    Ok(())
}
