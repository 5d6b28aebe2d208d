// A line of a mark and numbers, as a program's input has it before the town file.
#![tactic(auto)]

pub mod line;
