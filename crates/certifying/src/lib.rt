// The check of tables that are sent from the centre: the operation that refuses as Labels does, and otherwise says whether lent labels and predecessors
// are right, without a labelling. It asks nothing of its caller.
#![tactic(auto)]

mod arc;
mod interval;
mod junction;
pub mod tables;
