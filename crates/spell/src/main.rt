// Writes the one spelling of the order on standard input to standard output. Where it is refused nothing goes there, and standard error says the
// number, for 1 to 4 the position, and what the number means. A read or a write that fails is told on standard error too.
#![tactic(auto)]

ghost use Rattle.std.specs.Prelude.{◌≤◌, ◌≡◌, length};
ghost use Rattle.spell.specs.declared.Refusal.TheVariants.{Unspelled};
ghost use Rattle.spell.specs.declared.NotSpelled.TheVariants.{Refused, Failed};
ghost use Rattle.spell.specs.Reply.{reply_of};
ghost use Rattle.spell.specs.Answers.{number_of, Answers};
ghost use Rattle.spell.specs.Input.{Replies};

use order_forms::spelling::{SpellError, spell};
use program_io::{Failure, read_input, write};
use run::order::{Fault, Misread};
use std::io::{Read, Write};
use std::{fmt, io};

// Why an input has no spelling.
#[derive(Clone, Copy, Debug)]
enum Refusal {
    // The input is above 4,096 bytes: 8.
    TooLong,
    // The order's fault: 1 to 4. 17 does not come (`reply_number`).
    Unspelled(SpellError),
}

impl From<Refusal> for u8 {
    ghost from_gives = { λ refusal number. number ≡ number_of refusal };

    fn from(refusal: Refusal) -> u8 {
        match refusal {
            Refusal::TooLong => 8,
            Refusal::Unspelled(SpellError::Faulty(misread)) => u8::from(misread.fault),
            Refusal::Unspelled(SpellError::NoRoom) => 17,
        }
    }
}

// The number, the position where there is one, and what the number means.
impl fmt::Display for Refusal {
    fn fmt<W: fmt::Write>(&self, f: &mut fmt::Formatter<W>) -> fmt::Result {
        let number = u8::from(*self);
        match *self {
            Refusal::TooLong => write!(f, "refused {number}: above 4,096 bytes"),
            Refusal::Unspelled(SpellError::Faulty(Misread { fault, position })) => {
                let meaning = Meaning(fault);
                write!(f, "refused {number} {position}: {meaning}")
            }
            Refusal::Unspelled(SpellError::NoRoom) => {
                write!(f, "refused {number}: memory is shorter than the order")
            }
        }
    }
}

// A fault in words.
#[derive(Clone, Copy)]
struct Meaning(Fault);

impl fmt::Display for Meaning {
    fn fmt<W: fmt::Write>(&self, f: &mut fmt::Formatter<W>) -> fmt::Result {
        f.write_str(match self.0 {
            Fault::Cut => "an operand runs past the end, or no 09 came",
            Fault::Unknown => "a byte outside 01 to 09, or a switch above 1",
            Fault::Misplaced => {
                "a setting repeated or after 07, a second 07, an 08 before 07, or a byte after 09"
            }
            Fault::Missing => "07 with a setting missing, or 09 before 07",
        })
    }
}

// Why the program wrote no spelling, or a part of it.
#[derive(Clone, Copy, Debug)]
enum NotSpelled {
    Refused(Refusal),
    Failed(Failure),
}

impl From<SpellError> for NotSpelled {
    ghost from_gives = { λ error told. told ≡ Refused (Unspelled error) };

    fn from(error: SpellError) -> NotSpelled {
        NotSpelled::Refused(Refusal::Unspelled(error))
    }
}

impl From<Failure> for NotSpelled {
    ghost from_gives = { λ failure told. told ≡ Failed failure };

    fn from(failure: Failure) -> NotSpelled {
        NotSpelled::Failed(failure)
    }
}

impl fmt::Display for NotSpelled {
    fn fmt<W: fmt::Write>(&self, f: &mut fmt::Formatter<W>) -> fmt::Result {
        match self {
            NotSpelled::Refused(refusal) => write!(f, "{refusal}"),
            NotSpelled::Failed(failure) => write!(f, "{failure}"),
        }
    }
}

fn main(rt: HostRuntime) -> io::Result<()> {
    match print_reply(&mut rt.stdin(), &mut rt.stdout()) {
        Ok(()) => Ok(()),
        Err(error) => eprintln!(rt; "spell: {error}"),
    }
}

// Reads at most one byte more than an order may have.
fn print_reply<R: Read, W: Write>(input: &mut R, output: &mut W) -> Result<(), NotSpelled>
    ensures { Replies (R.remaining input.old) (W.contents output.old) (W.contents output.new) result }
{
    let mut buffer = [0u8; 4097];
    let filled = read_input(input, &mut buffer)?;
    reply(output, &buffer[..filled.count])
}

// Replies to an input: 8 above 4,096 bytes, before all else.
#[tactic(auto, using(crate::specs::ReplyLaws::long_refused))]
fn reply<W: Write>(output: &mut W, input: &[u8]) -> Result<(), NotSpelled>
    ensures { Answers (reply_of input.now) (W.contents output.old) (W.contents output.new) result }
{
    if input.len() > 4096 {
        return Err(NotSpelled::Refused(Refusal::TooLong));
    }
    write_spelling(output, input)
}

// Lends as many bytes as an order may have.
fn write_spelling<W: Write>(output: &mut W, order: &[u8]) -> Result<(), NotSpelled>
    requires { length order.now ≤ 4096 }
    ensures { Answers (reply_of order.now) (W.contents output.old) (W.contents output.new) result }
{
    let mut out = [0u8; 4096];
    let end = spell(order, &mut out)?;
    write(output, &out[0..end])?;
    Ok(())
}
