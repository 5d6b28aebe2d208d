// The tables of a network, lent to be filled.

#[derive(Drop)]
pub struct Tables<'a> {
    // A tick for each interval.
    pub fences: &'a mut [u32],
    // An entry for each arc.
    pub tails: &'a mut [u16],
    pub heads: &'a mut [u16],
    pub lengths: &'a mut [u32],
    pub holds: &'a mut [u16],
    // Arc by arc, and for each arc one for each interval.
    pub speeds: &'a mut [u8],
}
