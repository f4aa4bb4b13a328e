//! Certificates: the check that accepts exactly the sound ones, and the recipe for their claims.
#![tactic(auto)]

pub mod check;
pub mod finding;
pub mod recipe;
pub mod refusal;
