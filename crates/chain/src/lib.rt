// The chain: a plant of parts in series, each of which has an age, and one of which may have failed.
#![tactic(auto)]

mod charges;
pub mod limits;
pub mod numbers;
mod parts;
pub mod plant;
mod portfolios;
mod ranges;
pub mod refusal;
pub mod states;
mod windows;
