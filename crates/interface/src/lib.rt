// What a plant and a tariff are: the two interfaces that every kind of plant and every tariff keeps,
// and by which all code above knows them.
#![tactic(auto)]

pub mod claims;
pub mod limits;
pub mod places;
pub mod plant;
pub mod tariff;
