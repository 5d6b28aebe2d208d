// A reader read to its end, and a text written whole, for every program. An end is told from a failure; a call that moves only a part or
// is interrupted is gone on from; and a failure is one line on standard error.
#![tactic(auto)]

pub mod answer;
pub mod input;
pub mod output;
pub mod reason;
pub mod run;

// A signal may interrupt a call again and again, and a function must end: so many times one call is tried.
pub(crate) const MAX_TRIES: u32 = 1_000_000;
