// What the benchmarks call: every question of a plant asked, whole plans made, and books followed, each told as one number, so that
// another version's answers can be held against these.
#![tactic(auto)]

mod asking;
mod booking;
pub mod exports;
mod mixing;
mod planning;
mod refusal;
