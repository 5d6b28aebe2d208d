// The list of closures that comes with a question: read out of the slice that a caller lends into a flat table, and of its rows those that stop the
// asker. The work itself stands in functions that take the flat table.
#![tactic(auto)]

pub mod rows;
pub mod stopping;
