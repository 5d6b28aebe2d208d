// An arc as the engines drive it: a speed for each interval, its length and its hold.

#[derive(Clone, Copy)]
pub struct Road<'a> {
    // The tick of the day at which each interval starts.
    pub fences: &'a [u32],
    // The arc's own, one for each interval.
    pub speeds: &'a [u8],
    pub metres: u32,
    // In ticks.
    pub hold: u32,
}
