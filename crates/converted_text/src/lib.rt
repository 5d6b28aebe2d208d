// What the programs `to_new` and `to_old` print for a town file, put into a lent buffer. Reading the file and writing the text are the
// programs'.
#![tactic(auto)]

pub mod text;
