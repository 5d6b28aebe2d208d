// Reading.
ghost use Rattle.std.specs.Io.{ReadsAtMost};
ghost use Rattle.std.specs.Io.KnownBytes.{ReadConsumes};
ghost use Rattle.streams.specs.Transfer.{Within, ReadsWhole};

use crate::MAX_TRIES;
use crate::reason::fail;
use std::io::{self, ErrorKind, Read, Write};

// One byte more than an input may have, so that a longer one is seen to be longer without being read to its end.
pub const ROOM: usize = 65_537;

// One read, tried again where it is interrupted. It moves no bytes where the input ends. A function over this and `write_part` would have to promise of a whole chain of calls.
fn read_part<R: Read>(reader: &mut R, part: &mut [u8]) -> io::Result<usize>
    ensures within { ReadsAtMost result part.new }
    ensures bytes { ReadConsumes (R.remaining reader.old) (R.remaining reader.new) result part.new }
{
    for _ in 1..MAX_TRIES {
        match reader.read(part) {
            Ok(count) => return Ok(count),
            Err(error) => {
                if error.kind() != ErrorKind::Interrupted {
                    return Err(error);
                }
            }
        }
    }
    reader.read(part)
}

// Reads until the buffer is full or the input ends, and answers how many bytes it read. Where a read fails, standard error says so under the name.
pub fn read_all<R: Read, E: Write>(
    reader: &mut R,
    errors: &mut E,
    name: &[u8],
    buffer: &mut [u8],
) -> Option<usize>
    ensures within { Within result buffer.new }
    ensures whole { ReadsWhole result (R.remaining reader.old) (R.remaining reader.new) buffer.new }
{
    let mut length = 0;
    // A place by hand: std reads up to an input's end into a Vec alone.
    while length < buffer.len() {
        let count = match read_part(reader, &mut buffer[length..]) {
            Ok(count) => count,
            Err(error) => {
                fail(errors, name, &error);
                return None;
            }
        };
        if count == 0 {
            return Some(length);
        }
        length += count;
    }
    Some(length)
}

pub fn read_input<R: Read, E: Write>(
    reader: &mut R,
    errors: &mut E,
    input: &mut [u8; ROOM],
) -> Option<usize>
    ensures within { Within result input.new }
    ensures whole { ReadsWhole result (R.remaining reader.old) (R.remaining reader.new) input.new }
{
    read_all(reader, errors, b"standard input", input)
}
