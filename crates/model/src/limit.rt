// The limits of a network, and the spans of a metre.
pub const MAX_JUNCTIONS: usize = 200;

pub const MAX_ARCS: usize = 640;

pub const MAX_INTERVALS: usize = 96;

// In metres.
pub const MAX_LENGTH: u32 = 100_000;

// In kilometres an hour, which is as many spans a tick.
pub const MAX_SPEED: u8 = 200;

// In ticks.
pub const MAX_HOLD: u32 = 1_200;

pub const SPANS_PER_METRE: u64 = 36;
