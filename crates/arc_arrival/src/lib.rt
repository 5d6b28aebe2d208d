// Arc arrival: the rules on an arc, then the engine. It equals a definition for every input.
#![tactic(auto)]

pub mod arc;
