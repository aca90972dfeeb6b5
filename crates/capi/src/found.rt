// What a search answers: its number, and its bracket laid out in the slice for the result unless it was refused.
ghost use Rattle.std.specs.Prelude.{◌≡◌, ◌≤◌, length};
ghost use Rattle.vectors.specs.Memory.{put};
ghost use Rattle.threshold.specs.Answers.{why_of, bracket_of, searched_of};
ghost use Rattle.capi.specs.SearchCall.{why_number, bracket_out, after_search, sought_call};

use std::num::nearest_u64_to_f64;
use threshold::refusal::Refusal;
use threshold::{Bracket, Why};

// A slice too short for a result: a number of our own, for C's callers.
pub(crate) const SHORT_RESULT: u32 = 102;

// Both ends, the halvings made, why.
pub(crate) const BRACKET_LENGTH: usize = 4;

// The C interface has numbers for these.
#[tactic(auto, unfolding(crate::specs::SearchCall::why_number, crate::specs::SearchCall::middle_number))]
fn why_number(why: Why) -> u32
    ensures { result ≡ why_number (why_of why) }
{
    match why {
        Why::Used => 0,
        Why::Adjacent => 1,
        Why::Neither => 2,
        Why::Refused(refusal) => u32::from(u8::from(refusal)),
    }
}

#[tactic(auto, unfolding(crate::specs::SearchCall::bracket_out, vectors::specs::Memory::put))]
fn lay_bracket(b: Bracket, res: &mut [f64])
    requires { 4 ≤ length res.old }
    ensures { res.new ≡ put 0 (bracket_out (bracket_of b)) res.old }
{
    res[..BRACKET_LENGTH].copy_from_slice(&[
        nearest_u64_to_f64(b.low),
        nearest_u64_to_f64(b.high),
        f64::from(b.made),
        f64::from(why_number(b.why)),
    ]);
}

// A search's number, its bracket laid out unless it was refused.
#[tactic(auto, unfolding(crate::specs::SearchCall::sought_call))]
pub(crate) fn tell_searched(searched: Result<Bracket, Refusal>, res: &mut [f64]) -> u32
    requires { 4 ≤ length res.old }
    ensures { after_search result res.new ≡ sought_call (searched_of searched) res.old }
{
    match searched {
        Err(refusal) => u32::from(u8::from(refusal)),
        Ok(bracket) => {
            lay_bracket(bracket, res);
            0
        }
    }
}
