// Bytes, texts, numbers and refusals put into a lent buffer: what every program prints with.
#![tactic(auto)]

pub mod output;
pub mod text;
