// The two tariffs of the house.
#![tactic(auto)]

pub mod air_first;
pub mod priced;
pub mod refusal;

// Places are in thousandths, of a dark second or of a cent.
const THOUSAND: i64 = 1000;
