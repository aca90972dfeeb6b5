// The physics of the collapse: constraints, equations of motion, and the time step.
#![tactic(auto)]

mod constraint_computer;
pub mod constraints;
mod equations;
mod fill_grid;
pub mod integration;
mod slots;
pub mod state;
pub mod state_builder;
mod step;
