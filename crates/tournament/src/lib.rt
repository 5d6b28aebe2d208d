// A tournament of keys, by which the nearest of the junctions is known. Each function is total; what the nodes hold is said of a tree
// whose matches are all played.
#![tactic(auto)]

pub mod tree;
