// The lines, numbers and lists in which a plant or a plan is written.
#![tactic(auto)]

pub mod cutting;
pub mod numbers;
pub mod reading;
pub mod writing;
