// The pair: a plant of two units, each with grades, the last of which is failed.
#![tactic(auto)]

pub mod limits;
pub mod numbers;
pub mod plant;
pub mod portfolios;
pub mod ranges;
pub mod refusal;
pub mod states;
mod units;
