// The first fault of a text, or what its lines settle. Nothing is written.
ghost use Rattle.std.specs.Prelude.{◌≡◌, ◌≤◌, length};
ghost use Rattle.refusals.specs.Refusals.{number_of};
ghost use Rattle.refusals.specs.Answers.{outcome_of};
ghost use Rattle.townfile.specs.Answers.{reading_of};
ghost use Rattle.townfile.specs.FirstFault.{first_fault};
ghost use Rattle.scanning.specs.Scans.{line_keeps_lem, fault_of, whole_line};

use fields::field::line_end;
use reading::line::{LineRead, read_line};
use refusals::refusal::Refusal;
use townfile::fault::Fault;
use townfile::limit::{MAX_LINE, MAX_TEXT};
use townfile::progress::Progress;

// A line has its line feed and not too many bytes.
fn line_keeps(text: &[u8], at: usize, end: usize) -> Result<(), Refusal>
    requires { at ≤ end }
    ensures { outcome_of result ≡ line_keeps_lem text.now at end }
{
    if end == text.len() {
        return Err(Refusal::NoLineFeed);
    }
    if MAX_LINE < end - at {
        return Err(Refusal::LineLength);
    }
    Ok(())
}

// The fault of a line that is not read: its length and its line feed come first.
fn line_fault(text: &[u8], at: usize, refusal: Refusal) -> Refusal
    requires { at ≤ length text.now }
    ensures { number_of result ≡ fault_of text.now at (number_of refusal) }
{
    match line_keeps(text, at, line_end(text, at)) {
        Ok(()) => refusal,
        Err(first) => first,
    }
}

// One line with its line feed. Here and in `scan` a match and no `map_err`: a proof at the exit of its `?` cannot name what the closure answers.
fn next_line(progress: Progress, text: &[u8], at: usize) -> Result<LineRead, Refusal>
    requires { at ≤ length text.now }
    ensures { outcome_of result ≡ whole_line progress text.now at }
{
    let read = match read_line(progress, text, at) {
        Ok(read) => read,
        Err(refusal) => return Err(line_fault(text, at, refusal)),
    };
    line_keeps(text, at, read.end)?;
    Ok(read)
}

pub fn scan(text: &[u8]) -> Result<Progress, Fault>
    ensures { reading_of result ≡ first_fault text.now }
{
    if MAX_TEXT < text.len() {
        return Err(Fault {
            refusal: Refusal::TextLength,
            line: 0,
        });
    }
    let mut progress = Progress::start();
    // The place goes on by hand: where a line ends its reading says.
    let mut at = 0;
    let mut line = 1u32;
    while at < text.len() {
        let read = match next_line(progress, text, at) {
            Ok(read) => read,
            Err(refusal) => return Err(Fault { refusal, line }),
        };
        progress = read.progress;
        at = read.end + 1;
        line += 1;
    }
    if progress.turn < Progress::NAMES_DUE {
        return Err(Fault {
            refusal: Refusal::LineMissing,
            line,
        });
    }
    Ok(progress)
}
