// Lent bytes: what a call of the writer answers and leaves there.
use crate::digest::with;
use crate::order::MOST;
use order_forms::spelling::{SpellError, spell};
use std::{fmt, io};

// How many more bytes than the order has the last call lends.
pub const MORE: usize = 3;

const ROOM: usize = MOST + MORE;

// How many bytes were lent, the answer, and a digest of all of them afterwards.
#[derive(Clone, Copy, PartialEq)]
pub struct Answered {
    room: usize,
    answer: Result<usize, SpellError>,
    digest: u64,
}

impl fmt::Display for Answered {
    fn fmt<W: fmt::Write>(&self, f: &mut fmt::Formatter<W>) -> fmt::Result {
        write!(f, "in {} ", self.room)?;
        match self.answer {
            Ok(end) => write!(f, "ends {end}")?,
            Err(SpellError::Faulty(misread)) => {
                write!(
                    f,
                    "refused {} {}",
                    u8::from(misread.fault),
                    misread.position
                )?
            }
            Err(SpellError::NoRoom) => write!(f, "refused 17")?,
        }
        write!(f, " {}", self.digest)
    }
}

// The order spelled into one byte less than it has (not where it has none), into as many and into more.
pub fn line(rt: &impl Print, order: &[u8]) -> io::Result<()> {
    let n = order.len();
    print!(rt; "spelled ")?;
    if n > 0 {
        print!(rt; "{} ", call(order, n - 1))?;
    }
    println!(rt; "{} {}", call(order, n), call(order, n + MORE))
}

pub fn call(order: &[u8], room: usize) -> Answered {
    let mut lent = [0u8; ROOM];
    in_part(order, &mut lent[..room.min(ROOM)])
}

fn in_part(order: &[u8], lent: &mut [u8]) -> Answered {
    fill(lent);
    let answer = spell(order, lent);
    Answered {
        room: lent.len(),
        answer,
        digest: with(1, lent),
    }
}

// What stands in lent bytes beforehand.
fn fill(lent: &mut [u8]) {
    for (i, b) in lent.iter_mut().enumerate() {
        *b = ((37 * (i % 256) + 11) % 256) as u8;
    }
}
