// The sheet of a shift: the labels of each departure of a list in its own row, and the figures of each junction over all of them. It
// stands over the labelling, checks the network once, and asks nothing of its caller.
#![tactic(auto)]

mod figures;
mod rows;
pub mod sheet;
