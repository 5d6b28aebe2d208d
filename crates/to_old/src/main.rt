// The program `to_old`: it reads a town file from standard input and prints it in the old form.
#![tactic(auto)]

ghost use Rattle.std.specs.Prelude.{false};
ghost use Rattle.converted_text.specs.Printing.{conversion_for};
ghost use Rattle.streams.specs.Exit.{ExitStatus, exit_status, status_for, AnswersOrFails};

use converted_text::text::old_text;
use std::io::{Read, Write};
use std::process::ExitCode;
use streams::answer::{Status, print_answer};
use streams::run::run;
use townfile::limit::MAX_TEXT;

// Prints the answer to an input. This and the next function hold what is the program's own: its text, its room and its promise; all else is `streams::run`.
fn answer<W: Write, E: Write>(output: &mut W, errors: &mut E, input: &[u8]) -> Status
    ensures { AnswersOrFails (status_for (conversion_for false input.now)) (exit_status result) }
{
    let mut printed = [0u8; MAX_TEXT];
    let text = old_text(input, &mut printed);
    print_answer(output, errors, &printed[..text.length], text.refused)
}

pub fn to_old_run<R: Read, W: Write, E: Write>(
    reader: &mut R,
    output: &mut W,
    errors: &mut E,
) -> Status
    ensures { ExitStatus (exit_status result) }
{
    run(reader, output, errors, answer)
}

fn main(rt: HostRuntime) -> ExitCode {
    let status = to_old_run(&mut rt.stdin(), &mut rt.stdout(), &mut rt.stderr());
    ExitCode::from(status.code())
}
