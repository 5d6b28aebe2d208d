// The operations for C, to compare and to time them: each function calls its operation, and answers one number. The host question,
// the cabinet's own function for C, stands in the crate `cabinet`.
#![tactic(auto)]

mod bit;
pub mod network;
pub mod passes;
pub mod question;
pub mod tables_check;
pub mod text;
pub mod week_store;
