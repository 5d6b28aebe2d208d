// The flow speed model of Sung and Bell in whole ticks: the types that every operation shares. Their meaning, and the
// laws that hold of it, stand in specs/ and proofs/.
#![tactic(auto)]

pub mod closure;
pub mod label;
pub mod limit;
pub mod network;
pub mod party;
pub mod tick;
