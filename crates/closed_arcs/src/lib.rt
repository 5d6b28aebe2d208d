// Where the closures of each arc stand in the list, found once for all drives of an engine: an arc is driven with that part at hand, and one that has none
// by its plan alone. And what driving an arc of the roads comes to, also from its tail's label, for the engines' contracts and proofs.
#![tactic(auto)]

pub mod mark;
pub mod roads;
