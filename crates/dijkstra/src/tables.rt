// The tables of a labelling that is under way.
use model::limit::MAX_JUNCTIONS;
use tournament::tree::NODES;

#[derive(Drop)]
pub(crate) struct Tables<'a> {
    pub(crate) labels: &'a mut [u32],
    pub(crate) predecessors: &'a mut [u16],
    // For each junction that is reached the interval of its label.
    pub(crate) intervals: [u8; MAX_JUNCTIONS],
    // The junctions that are reached and not settled, by their labels. By reference: so large a value would be cleared byte by byte.
    pub(crate) tree: &'a mut [u32; NODES],
}
