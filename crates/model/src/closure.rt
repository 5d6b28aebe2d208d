// Roadworks: a closure, as a council sends it, and how many a question may bring.
pub const MAX_CLOSURES: usize = 64;

// From the first tick up to but not including the end tick the speed on the arc is 0, for its party or for both.
#[repr(C)]
#[derive(Clone, Copy)]
pub struct Closure {
    pub arc: u32,
    pub first: u32,
    pub end: u32,
    pub party: u32,
}
