// Name: a junction's name as a part of the lent text.
#![tactic(auto)]

pub mod name;
