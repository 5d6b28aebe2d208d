// The converted file, or the line of a refusal.
ghost use Rattle.std.specs.Prelude.{◌≡◌, true, false, length};
ghost use Rattle.model.specs.Rules.{written};
ghost use Rattle.formatting.specs.Texts.{is_refusal};
ghost use Rattle.townfile.specs.Answers.{reading_of};
ghost use Rattle.converted_text.specs.Printing.{conversion_for, conversion_text};
ghost use Rattle.converted_text.specs.Code.Prints.{Prints};

use converting::convert::{to_new, to_old};
use formatting::output::Output;
use formatting::text::Text;
use townfile::fault::Fault;
use townfile::limit::MAX_TEXT;

// What a converter has answered; its result stands in the output.
fn text_of(answer: Result<usize, Fault>, output: &mut [u8; MAX_TEXT]) -> Text
    ensures { Prints (reading_of answer) output.old output.new result }
{
    match answer {
        Ok(length) => Text {
            length,
            refused: false,
        },
        Err(fault) => {
            let mut printed = Output::new(output);
            printed.put_refusal(fault.refusal, fault.line);
            Text {
                length: printed.length,
                refused: true,
            }
        }
    }
}

// Two operations by name, as the two converters of document 02.
pub fn new_text(input: &[u8], output: &mut [u8; MAX_TEXT]) -> Text
    ensures length { result.length ≡ length (conversion_text true input.now) }
    ensures refused { result.refused ≡ is_refusal (conversion_for true input.now) }
    ensures output { output.new ≡ written (conversion_text true input.now) output.old }
{
    let answer = to_new(input, output);
    text_of(answer, output)
}

pub fn old_text(input: &[u8], output: &mut [u8; MAX_TEXT]) -> Text
    ensures length { result.length ≡ length (conversion_text false input.now) }
    ensures refused { result.refused ≡ is_refusal (conversion_for false input.now) }
    ensures output { output.new ≡ written (conversion_text false input.now) output.old }
{
    let answer = to_old(input, output);
    text_of(answer, output)
}
