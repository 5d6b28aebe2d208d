// Writing.
ghost use Rattle.std.specs.Bool.{OnTrue};
ghost use Rattle.std.specs.Io.{WritesAtMost};
ghost use Rattle.std.specs.Io.KnownBytes.{Appends, WriteAppends};

use crate::MAX_TRIES;
use crate::reason::fail;
use std::io::{self, ErrorKind, Write};

// One write, tried again where it is interrupted: a million times, and not 2^64 times as by std's `write_all`.
fn write_part<W: Write>(writer: &mut W, part: &[u8]) -> io::Result<usize>
    ensures within { WritesAtMost result part.now }
    ensures bytes { WriteAppends (W.contents writer.old) (W.contents writer.new) result part.now }
{
    for _ in 1..MAX_TRIES {
        match writer.write(part) {
            Ok(count) => return Ok(count),
            Err(error) => {
                if error.kind() != ErrorKind::Interrupted {
                    return Err(error);
                }
            }
        }
    }
    writer.write(part)
}

// A write that moves no bytes and does not fail gives no reason.
fn fail_unmoved<E: Write>(errors: &mut E, name: &[u8]) {
    let _ = errors.write_all(name);
    let _ = errors.write_all(b": no byte was taken\n");
}

// Writes all of the text, and answers whether it did. Where a write fails, standard error says so under the name.
pub fn write_all<W: Write, E: Write>(
    writer: &mut W,
    errors: &mut E,
    name: &[u8],
    text: &[u8],
) -> bool
    ensures { OnTrue result (Appends (W.contents writer.old) (W.contents writer.new) text.now) }
{
    // A place by hand: a call moves any part, and says how much.
    let mut length = 0;
    while length < text.len() {
        let count = match write_part(writer, &text[length..]) {
            Ok(count) => count,
            Err(error) => {
                fail(errors, name, &error);
                return false;
            }
        };
        if count == 0 {
            fail_unmoved(errors, name);
            return false;
        }
        length += count;
    }
    true
}
