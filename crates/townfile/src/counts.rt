// How much a town has.

#[derive(Clone, Copy, Debug, PartialEq, Eq)]
pub struct Counts {
    pub junctions: u32,
    pub intervals: u32,
    pub arcs: u32,
}
