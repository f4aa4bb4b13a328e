//! The planner: sweeps over a value table, then a policy and its claims.
#![tactic(auto)]

pub mod plan;
pub mod refusal;
mod sweep;
