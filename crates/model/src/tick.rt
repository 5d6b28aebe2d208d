// The tick of the model, and what driving an arc ends in.

// A tick is a tenth of a second, counted from the start of the first day.
#[derive(Clone, Copy, Debug, PartialEq, Eq, PartialOrd, Ord)]
pub struct Tick {
    pub number: u32,
}

impl Tick {
    // The ticks of a day. Every fence lies below it, and after them the plan starts again.
    pub const DAY: u32 = 864_000;
    // The last tick by which anything arrives: the end of the second day.
    pub const LAST: u32 = 1_728_000;
}

// An arrival on an arc, with the number of the interval that contains its tick. Where an arc cannot be driven by the last tick there is none.
#[derive(Clone, Copy, Debug, PartialEq, Eq)]
pub struct Arrival {
    pub tick: Tick,
    pub interval: usize,
}
