// The reply to a request: the text of a plan, or why there is none.
#![tactic(auto)]

pub mod answer;
mod behind;
mod planning;
pub mod replying;
mod sweeps;
pub mod words;
mod writing;
