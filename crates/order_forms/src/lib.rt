// Forms of orders: one spelling for each.
#![tactic(auto)]

pub mod spelling;
