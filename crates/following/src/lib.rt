//! Books that follow an accepted certificate, and what that promises of their cost.
#![tactic(auto)]

pub mod accept;
pub mod follow;
