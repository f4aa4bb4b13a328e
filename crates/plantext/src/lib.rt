// Plans as text: a plan's lines are written one by one, and a whole plan is read.
#![tactic(auto)]

pub mod line;
pub mod reading;
pub mod refusal;
pub mod stage;
pub mod values;
pub mod writing;
