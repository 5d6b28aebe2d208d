// What the program `sheet` prints for an input, put into a lent buffer. Reading the input and writing the output are the program's.
#![tactic(auto)]

mod lines;
pub mod sheet;
