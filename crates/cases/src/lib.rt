// What the case programs share: digests of floats, the arguments of cases, and the numbers of answers.
#![tactic(auto)]

pub mod answers;
pub mod arguments;
pub mod digest;
