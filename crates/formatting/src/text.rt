// The text that a program prints, at the start of its output.
ghost use Rattle.std.specs.Prelude.{true};
ghost use Rattle.refusals.specs.Refusals.{number_of};
ghost use Rattle.formatting.specs.Texts.{refusal_text};
ghost use Rattle.formatting.specs.Printed.{Printed};

use crate::output::Output;
use refusals::refusal::Refusal;

// Every program's output has this room, which is enough for each of their texts.
pub const OUTPUT: usize = 8_192;

// How long the text is, and whether it is a refusal, for the exit status. A refusal has a text too, so a Result would have the length on both sides.
#[derive(Clone, Copy)]
pub struct Text {
    pub length: usize,
    pub refused: bool,
}

pub fn refuse(buffer: &mut [u8; OUTPUT], refusal: Refusal, line: u32) -> Text
    ensures { Printed (refusal_text (number_of refusal) line) true buffer.old buffer.new result }
{
    let mut output = Output::new(buffer);
    output.put_refusal(refusal, line);
    Text {
        length: output.length,
        refused: true,
    }
}
