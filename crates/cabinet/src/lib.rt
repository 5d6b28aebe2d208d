// The cabinet's own question, which its C program asks, over the operations below it.
#![tactic(auto)]

pub mod host;
