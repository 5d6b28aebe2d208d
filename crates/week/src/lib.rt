// Which plan on which weekday: lists of masks, the store of their last 16 versions, and the operations on it. It stands apart from the network.
#![tactic(auto)]

mod list;
pub mod making;
pub mod planning;
pub mod store;
