// The limits of a town file, in bytes.
pub const MAX_TEXT: usize = 65_536;

// Of a line, before its line feed.
pub const MAX_LINE: usize = 700;

pub const MAX_NAME: usize = 24;

// A number has at most 7 digits, so behind a value up to this a digit may follow.
pub const MAX_OF_SIX_DIGITS: u32 = 999_999;
