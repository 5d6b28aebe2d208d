// A program's answer: its text is written, and its exit status says what became of it.
ghost use Rattle.std.specs.Prelude.{◌≡◌, ◌≢◌, pos};
ghost use Rattle.std.specs.Io.KnownBytes.{Appends};
ghost use Rattle.streams.specs.Exit.{exit_status, status_when, AnswersOrFails};

use crate::output::write_all;
use std::io::Write;

// How a program ends.
#[derive(Clone, Copy, Debug, PartialEq, Eq)]
pub enum Status {
    Answered = 0,
    Refused = 1,
    // The input was not read, or the output not written.
    Failed = 2,
}

impl Status {
    // The number that the system is told.
    pub fn code(self) -> u8
        ensures { exit_status self ≡ pos result }
    {
        self as u8
    }
}

pub fn print_answer<W: Write, E: Write>(
    output: &mut W,
    errors: &mut E,
    text: &[u8],
    refused: bool,
) -> Status
    ensures status { AnswersOrFails (status_when refused) (exit_status result) }
    ensures written { exit_status result ≢ pos 2 → Appends (W.contents output.old) (W.contents output.new) text.now }
{
    if !write_all(output, errors, b"standard output", text) {
        return Status::Failed;
    }
    if refused {
        Status::Refused
    } else {
        Status::Answered
    }
}
