// The tests of the rules, whether tables are a network, whether its closures and who asks are taken, and whether a question of it is: what every operation asks first.
#![tactic(auto)]

mod check;
pub mod closure;
pub mod highest;
pub mod network;
pub mod question;
pub mod rule;
