// The reader of a pair's text.
#![tactic(auto)]

pub mod reader;
mod rows;
pub mod stage;
mod steps;
pub mod text;
