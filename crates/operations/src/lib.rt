// Labels, Passes, the check of sent tables, Route and Sheet as callers see them: the operations of `labelling`, `passing`, `certifying`, `routing` and
// `sheeting`, with the closures lent as a slice of records, for both parties, and the asker. Each reads the slice by the one function that does, and
// hands everything else on. It asks nothing of its caller.
#![tactic(auto)]

pub mod labels;
pub mod passes;
pub mod route;
pub mod sheet;
pub mod tables_check;
