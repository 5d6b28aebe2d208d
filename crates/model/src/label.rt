// The marks in tables of labels and predecessors.

// The label of an unreached junction. It is above every tick.
pub const UNREACHED: u32 = 4_294_967_295;

// The predecessor of the source and of an unreached junction. It is above every arc's number.
pub const NO_ARC: u16 = 65_535;
