// Route: the way by which the engine arrives at a label. It stands over the operation Labels, and like it refuses with the first
// rule that is broken, in the papers' order, and asks nothing of its caller.
#![tactic(auto)]

pub mod route;
