// A network in the tables that a caller lends.

#[derive(Clone, Copy)]
pub struct Network<'a> {
    pub junctions: usize,
    // The tick of the day at which each interval starts.
    pub fences: &'a [u32],
    // For each arc the junctions that it goes from and to. The arc count is the length of the tails.
    pub tails: &'a [u16],
    pub heads: &'a [u16],
    // For each arc in metres, and in ticks.
    pub lengths: &'a [u32],
    pub holds: &'a [u16],
    // Arc by arc, and for each arc one for each interval.
    pub speeds: &'a [u8],
}
