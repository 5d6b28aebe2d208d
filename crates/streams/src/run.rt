// What every program does: it reads its input whole, and answers it.
ghost use Rattle.streams.specs.Exit.{ExitStatus, exit_status};

use crate::answer::Status;
use crate::input::{ROOM, read_input};
use std::io::{Read, Write};

// Of an input that was not read whole nothing is printed.
#[tactic(auto, using(crate::proofs::Exit::every_status))]
pub fn run<R: Read, W: Write, E: Write, F: FnOnce(&mut W, &mut E, &[u8]) -> Status>(
    reader: &mut R,
    output: &mut W,
    errors: &mut E,
    answer: F,
) -> Status
    requires { F.IsAlwaysCallable answer }
    ensures { ExitStatus (exit_status result) }
{
    let mut input = [0u8; ROOM];
    let Some(length) = read_input(reader, errors, &mut input) else {
        return Status::Failed;
    };
    answer(output, errors, &input[..length])
}
