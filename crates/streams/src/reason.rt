// Why a read or a write failed, said on standard error.
use arrayvec::ArrayString;
use std::fmt;
use std::io::{Error, Write};

// More than the system's longest words for an error.
const ROOM: usize = 128;

// One line: what failed, a colon and why. There is nowhere to say that this line failed.
pub fn fail<E: Write>(errors: &mut E, name: &[u8], error: &Error) {
    let mut reason = ArrayString::<ROOM>::new();
    let _ = fmt::Write::write_fmt(&mut reason, error);
    // The system's words alone: std puts the error's number behind them.
    let text = reason.as_str();
    let words = text
        .split_once(" (os error ")
        .map_or(text, |(words, _)| words);
    let _ = errors.write_all(name);
    let _ = errors.write_all(b": ");
    let _ = errors.write_all(words.as_bytes());
    let _ = errors.write_all(b"\n");
}
