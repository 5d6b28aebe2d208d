// The labelling of a network in lent tables: settle the nearest junction that is not settled yet, and drive its arcs. It is total and
// safe for all tables and numbers: it tests once, before it writes, what its indices rest on. Where the network is accepted and the
// question taken, it writes the labels and the predecessors.
#![tactic(auto)]

pub mod label;
mod link;
mod offer;
mod settle;
mod tables;
