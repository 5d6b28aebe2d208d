// Driving an arc: the engine that goes interval by interval, the one for an arc with closures, the hold at the arc's end, and the interval of a
// tick. Each open function is total; an engine gives the arrival and its interval on every arc that keeps the rules.
#![tactic(auto)]

pub mod closed;
pub mod drive;
pub mod hold;
pub mod interval;
pub mod road;
