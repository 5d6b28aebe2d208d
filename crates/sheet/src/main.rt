// The program `sheet`: it reads a source, a list of departures and a town file from standard input and prints each junction's figures
// over all of the departures.
#![tactic(auto)]

ghost use Rattle.sheet_text.specs.Answer.{sheet_for};
ghost use Rattle.streams.specs.Exit.{ExitStatus, exit_status, status_for, AnswersOrFails};

use formatting::text::OUTPUT;
use sheet_text::sheet::sheet_text;
use std::io::{Read, Write};
use std::process::ExitCode;
use streams::answer::{Status, print_answer};
use streams::run::run;

// Prints the answer to an input. This and the next function hold what is the program's own: its text, its room and its promise; all else is `streams::run`.
fn answer<W: Write, E: Write>(output: &mut W, errors: &mut E, input: &[u8]) -> Status
    ensures { AnswersOrFails (status_for (sheet_for input.now)) (exit_status result) }
{
    let mut printed = [0u8; OUTPUT];
    let text = sheet_text(input, &mut printed);
    print_answer(output, errors, &printed[..text.length], text.refused)
}

pub fn sheet_run<R: Read, W: Write, E: Write>(
    reader: &mut R,
    output: &mut W,
    errors: &mut E,
) -> Status
    ensures { ExitStatus (exit_status result) }
{
    run(reader, output, errors, answer)
}

fn main(rt: HostRuntime) -> ExitCode {
    let status = sheet_run(&mut rt.stdin(), &mut rt.stdout(), &mut rt.stderr());
    ExitCode::from(status.code())
}
