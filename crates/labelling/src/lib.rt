// Labels, on a network that lies in lent tables: the operation that refuses with the first rule that is broken, in the papers'
// order, and otherwise labels. It asks nothing of its caller.
#![tactic(auto)]

pub mod check;
pub mod labels;
pub mod own;
