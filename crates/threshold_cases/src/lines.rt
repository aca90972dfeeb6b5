// How the answer of a search is printed.
use std::fmt;
use threshold::refusal::Refusal;
use threshold::{Bracket, Why};

// A refusal's number, or both ends, the halvings made and why the search stopped.
#[derive(Clone, Copy)]
pub struct Shown(pub Result<Bracket, Refusal>);

impl fmt::Display for Shown {
    fn fmt<W: fmt::Write>(&self, f: &mut fmt::Formatter<W>) -> fmt::Result {
        match self.0 {
            Err(refusal) => write!(f, "refused {}", u8::from(refusal)),
            Ok(
                Bracket {
                    low,
                    high,
                    made,
                    why,
                },
            ) => write!(f, "low {low} high {high} made {made} why {}", Reason(why)),
        }
    }
}

#[derive(Clone, Copy)]
struct Reason(Why);

impl fmt::Display for Reason {
    fn fmt<W: fmt::Write>(&self, f: &mut fmt::Formatter<W>) -> fmt::Result {
        match self.0 {
            Why::Used => write!(f, "used"),
            Why::Adjacent => write!(f, "adjacent"),
            Why::Neither => write!(f, "neither"),
            Why::Refused(refusal) => write!(f, "refused {}", u8::from(refusal)),
        }
    }
}
