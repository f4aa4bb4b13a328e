//! The desk at which a plan is followed: lines ask for the next step of a book that follows a plan,
//! and lines answer.
#![tactic(auto)]

pub mod asking;
pub mod desk;
pub mod opening;
pub mod requesting;
pub mod saying;
pub mod streams;
pub mod talk;
pub mod terminal;
