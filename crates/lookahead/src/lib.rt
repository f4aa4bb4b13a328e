// Value tables, and what a portfolio comes to under one: its look-ahead and its gain. A plant is
// known by its questions alone, a tariff by its operations alone.
#![tactic(auto)]

mod ahead;
pub mod best;
pub mod table;
pub mod valued;
