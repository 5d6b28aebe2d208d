// The labels of the town that a town file describes: Load and Labels in one, for every program that starts from a town file.
#![tactic(auto)]

pub mod town;
