// Load: a town file into lent tables. Only a text in which the scan finds no fault is read again, to fill them.
#![tactic(auto)]

mod fill;
pub mod load;
pub mod town;
