// The converters of town files, to the new form and back. Only a text in which the scan finds no fault is converted, and nothing is
// written before it is known that the result has room.
#![tactic(auto)]

pub mod convert;
mod hold;
mod line;
mod lines;
