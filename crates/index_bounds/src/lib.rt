// Whether a network's tables, a source, a departure and two buffers are such that no index of a labelling lies outside: a test far
// quicker than the check of the network's rules.
#![tactic(auto)]

pub mod fit;
