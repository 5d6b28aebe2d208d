// The tables of passes that are under way.
use model::limit::{MAX_ARCS, MAX_JUNCTIONS};

// `TimedLabels` is no ghost field: a ghost field has to be a proposition, and that holds an "or"; it speaks of the roads, too, which are no part of this.
#[derive(Drop)]
pub(crate) struct Tables<'a> {
    pub(crate) labels: &'a mut [u32],
    // For each junction that is reached the interval of its label.
    pub(crate) intervals: [u8; MAX_JUNCTIONS],
    // For each arc its arrival from its tail's label; or the mark for unreached, where it arrives only after its head's label or not by the last tick.
    pub(crate) arrivals: [u32; MAX_ARCS],
    // For each junction the number of the pass that has lowered its label last, or 0.
    pub(crate) latest: [u32; MAX_JUNCTIONS],
}
