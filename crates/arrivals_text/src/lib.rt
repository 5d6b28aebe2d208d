// What the program `arrivals` prints for an input, put into a lent buffer. Reading the input and writing the output are the
// program's.
#![tactic(auto)]

pub mod arrivals;
mod question;
mod table;
