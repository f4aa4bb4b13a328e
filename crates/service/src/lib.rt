//! The service of a plant: its plan, checked, and a book that follows it as an operator asks.
#![tactic(auto)]

pub mod operator;
pub mod serve;
