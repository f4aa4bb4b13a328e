// What the readers of plants share: the keys of lines, the rules of refusals, and the numbers in values.
#![tactic(auto)]

pub mod keys;
pub mod rules;
pub mod values;
