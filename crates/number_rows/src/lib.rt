// Numbers that fill the rest of a line: fences, speeds, and the end behind any numbers. Each function that another crate calls equals
// a definition for every input.
#![tactic(auto)]

pub mod limits;
pub mod numbers;
pub mod speeds;
