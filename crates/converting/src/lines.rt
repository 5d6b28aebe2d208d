// The lines of a text, converted one by one and put into the output.
ghost use Rattle.std.specs.Prelude.{◌≡◌, ◌++◌, ◌≤◌, length, drop};
ghost use Rattle.formatting.specs.Output.{Puts};
ghost use Rattle.formatting.specs.Putting.{PutIfRoom};
ghost use Rattle.conversion.specs.Conversion.{to_new_lem, to_old_lem, converted_line, converted};
ghost use Rattle.converting.specs.Code.Lines.{InLines};

use crate::line::{Line, line_at};
use formatting::output::Output;
use townfile::mark::{ARC, HELD_TOWN, LINE_FEED, TOWN};

// The line with other letters for its mark.
fn put_marked(letters: &[u8], line: &[u8], output: &mut Output)
    requires { 2 ≤ length line.now }
    ensures { Puts (letters.now ++ drop 2 line.now) output.old output.new }
{
    output.put_text(letters);
    output.put_text(&line[2..]);
}

// `TN` becomes `TW`, and an AR line gets a space and 0 at its end.
#[tactic(auto, using(crate::proofs::LineMark::mark_long))]
fn put_new(line: &Line, output: &mut Output)
    ensures { Puts (to_new_lem line.now.bytes.now) output.old output.new }
{
    match line.mark {
        TOWN => put_marked(b"TW", line.bytes, output),
        ARC => {
            output.put_text(line.bytes);
            output.put_text(b" 0");
        }
        _ => output.put_text(line.bytes),
    }
}

// `TW` becomes `TN`, and an AR line loses its hold of 0 with its space.
#[tactic(auto, using(crate::proofs::LineMark::mark_long))]
fn put_old(line: &Line, output: &mut Output)
    ensures { Puts (to_old_lem line.now.bytes.now) output.old output.new }
{
    match line.mark {
        HELD_TOWN => put_marked(b"TN", line.bytes, output),
        ARC => {
            let hold = line.bytes.len() - 2;
            output.put_text(&line.bytes[..hold]);
        }
        _ => output.put_text(line.bytes),
    }
}

#[tactic(auto, unfolding(conversion::specs::Conversion::converted_line))]
fn put_line(wanted: bool, line: &Line, output: &mut Output)
    ensures { Puts (converted_line wanted line.now.bytes.now) output.old output.new }
{
    if wanted {
        put_new(line, output);
    } else {
        put_old(line, output);
    }
}

// All lines from the buffer's start on, walked by hand as in `all_unheld`.
pub(crate) fn put_lines(wanted: bool, text: &[u8], buffer: &mut [u8]) -> usize
    requires { InLines text.now }
    ensures { PutIfRoom (converted wanted text.now) 0 buffer.old buffer.new result }
{
    let mut output = Output::new(buffer);
    let mut at = 0;
    while at < text.len() {
        let line = line_at(text, at);
        put_line(wanted, &line, &mut output);
        output.put_byte(LINE_FEED);
        at += line.bytes.len() + 1;
    }
    output.length
}
