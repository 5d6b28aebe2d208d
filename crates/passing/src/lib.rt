// Repeated passes over all arcs, lowering labels until a pass changes none: the operation that refuses as Labels does, and otherwise leaves what
// Labels leaves and replies how many passes there were. It asks nothing of its caller.
#![tactic(auto)]

mod arc;
mod pass;
pub mod passes;
mod predecessor;
mod tables;
