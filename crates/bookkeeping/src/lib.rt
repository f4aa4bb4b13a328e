//! Books that follow a policy window by window, their log, and their whole past.
#![tactic(auto)]

pub mod book;
pub mod refusal;
pub mod run;
pub mod stage;
pub mod standing;
#[cfg(test)]
mod tests;
