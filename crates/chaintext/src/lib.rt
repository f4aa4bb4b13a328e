// The reader of a chain's text.
#![tactic(auto)]

pub mod read;
pub mod reader;
mod steps;
