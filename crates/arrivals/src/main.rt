// The program `arrivals`: it reads a question and a town file from standard input and prints when each junction is reached, and by
// which arc.
#![tactic(auto)]

ghost use Rattle.arrivals_text.specs.Answer.{answer_to};
ghost use Rattle.streams.specs.Exit.{ExitStatus, exit_status, status_for, AnswersOrFails};

use arrivals_text::arrivals::arrivals;
use formatting::text::OUTPUT;
use std::io::{Read, Write};
use std::process::ExitCode;
use streams::answer::{Status, print_answer};
use streams::run::run;

// Prints the answer to an input. This and the next function hold what is the program's own: its text, its room and its promise; all else is `streams::run`.
fn answer<W: Write, E: Write>(output: &mut W, errors: &mut E, input: &[u8]) -> Status
    ensures { AnswersOrFails (status_for (answer_to input.now)) (exit_status result) }
{
    let mut printed = [0u8; OUTPUT];
    let text = arrivals(input, &mut printed);
    print_answer(output, errors, &printed[..text.length], text.refused)
}

pub fn arrivals_run<R: Read, W: Write, E: Write>(
    reader: &mut R,
    output: &mut W,
    errors: &mut E,
) -> Status
    ensures { ExitStatus (exit_status result) }
{
    run(reader, output, errors, answer)
}

fn main(rt: HostRuntime) -> ExitCode {
    let status = arrivals_run(&mut rt.stdin(), &mut rt.stdout(), &mut rt.stderr());
    ExitCode::from(status.code())
}
