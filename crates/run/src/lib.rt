// Runs with budgeted advance.
#![tactic(auto)]

pub mod adaptive_time_step;
mod bytes;
pub mod carry_out;
mod live;
mod model;
pub mod order;
pub mod outcome;
pub mod refusal;
pub mod report;
pub mod settings;
pub mod simulate;
pub mod simulation_inputs;
pub mod skip_run;
pub mod state_output_builder;
mod text;
mod writer;
