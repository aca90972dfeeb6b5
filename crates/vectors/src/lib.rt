// Vectors of f64, the stencils on them, and exp and tan.
#![tactic(auto)]

pub mod answer;
pub mod bits;
pub mod constants;
pub mod diff;
pub mod exp;
pub mod field_vector;
pub mod grid;
pub mod rows;
pub mod tan;
