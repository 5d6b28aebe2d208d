// The marks that begin a line, each as the 16-bit number of its two bytes, and the bytes that part lines and fields.
pub const TOWN: u16 = 0x544E;

// It stands for TN in the new form.
pub const HELD_TOWN: u16 = 0x5457;

pub const FENCES: u16 = 0x464E;

pub const JUNCTION: u16 = 0x4A4E;

pub const ARC: u16 = 0x4152;

pub const COMMENT: u16 = 0x434D;

// What a line shorter than a mark has: a number and no option, since document 01 has the mark matched as a 16-bit number.
pub const NONE: u16 = 0;

pub const LINE_FEED: u8 = 10;

pub const SPACE: u8 = 32;
