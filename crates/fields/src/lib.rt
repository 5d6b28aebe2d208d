// What stands at a place of a line: a mark, a field, a name, the line's end. Each function equals a definition for every text and
// every place.
#![tactic(auto)]

pub mod field;
