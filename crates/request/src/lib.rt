// A request around its plant: the kind that it names, the tariff, the number of sweeps, and nothing more.
#![tactic(auto)]

mod due;
pub mod ending;
pub mod kind;
pub mod sweeps;
pub mod tariff;
