// The town file: its grammar, the definition of the first fault and of the tables it fills, and the laws that join them. The
// code that reads a file is in the crates `fields`, `number_rows`, `reading`, `scanning`, `loading` and `naming`.
#![tactic(auto)]

pub mod counts;
pub mod fault;
pub mod limit;
pub mod mark;
pub mod part;
pub mod progress;
pub mod tables;
