// How answers are printed.
use run::outcome::Outcome;
use run::refusal::Refusal;
use run::settings::Record;
use run::simulate::Answer;
use std::fmt;
use vectors::bits::bits_of;

pub fn name(answer: Result<Answer, Refusal>) -> &'static str {
    match answer {
        Err(_) => "refused",
        Ok(Answer::Full(..)) => "full",
        Ok(Answer::Ran(Outcome::Collapse(_), _)) => "collapse",
        Ok(Answer::Ran(Outcome::Broken, _)) => "broken",
        Ok(Answer::Ran(Outcome::Timeout, _)) => "timeout",
        Ok(Answer::Ran(Outcome::Spent, _)) => "spent",
    }
}

// The mass of an answer, or none.
#[derive(Clone, Copy)]
pub struct Mass(pub Result<Answer, Refusal>);

impl fmt::Display for Mass {
    fn fmt<W: fmt::Write>(&self, f: &mut fmt::Formatter<W>) -> fmt::Result {
        match self.0 {
            Ok(Answer::Ran(Outcome::Collapse(mass), _)) => write!(f, "{:016x}", bits_of(mass)),
            _ => write!(f, "none"),
        }
    }
}

// The answer of an advance and the record after it. A refusal has its number, full the attempts and frames, an outcome the mass
// and frames.
#[derive(Clone, Copy)]
pub struct Reply(pub Result<Answer, Refusal>, pub Record);

impl fmt::Display for Reply {
    fn fmt<W: fmt::Write>(&self, f: &mut fmt::Formatter<W>) -> fmt::Result {
        let answer = self.0;
        write!(f, "{}", name(answer))?;
        match answer {
            Err(refusal) => write!(f, " {}", u8::from(refusal))?,
            Ok(Answer::Full(attempts, frames)) => write!(f, " {attempts} {frames}")?,
            Ok(Answer::Ran(_, frames)) => write!(f, " {} {frames}", Mass(answer))?,
        }
        let record = self.1;
        write!(
            f,
            " record {} {:016x} {}",
            record.steps,
            bits_of(record.time),
            record.broken as u32
        )
    }
}
