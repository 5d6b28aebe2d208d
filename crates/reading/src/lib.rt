// A line of a town file, by its mark: what it adds, or its first fault. `read_line` equals a definition for every text and every place.
#![tactic(auto)]

mod limits;
pub mod line;
