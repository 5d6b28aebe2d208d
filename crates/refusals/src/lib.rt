// The refusals, and the number of each.
#![tactic(auto)]

pub mod refusal;
