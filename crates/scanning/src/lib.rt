// The scan of a town file, for Load and Name: the first fault, or the counts. It writes nothing.
#![tactic(auto)]

pub mod scan;
