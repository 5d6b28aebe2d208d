// What the program prints for its whole input.
ghost use Rattle.std.specs.Prelude.{◌≡◌, length};
ghost use Rattle.model.specs.Rules.{written};
ghost use Rattle.town_labels.specs.Labelling.{town_labelling};
ghost use Rattle.formatting.specs.Texts.{is_refusal};
ghost use Rattle.formatting.specs.Printed.{PrintedAnswer};
ghost use Rattle.arrivals_text.specs.Answer.{answer_to, table_of, text_of_arrivals};

use crate::question::question_in;
use crate::table::put_table;
use formatting::text::{OUTPUT, Text, refuse};
use model::limit::MAX_JUNCTIONS;
use refusals::refusal::Refusal;
use town_labels::town::town_labels;
use townfile::limit::MAX_TEXT;

// The arrivals in the town of a town file.
fn town_arrivals(text: &[u8], source: u32, departure: u32, output: &mut [u8; OUTPUT]) -> Text
    ensures { PrintedAnswer table_of (town_labelling text.now source departure) output.old output.new result }
{
    let mut labels = [0u32; MAX_JUNCTIONS];
    let mut predecessors = [0u16; MAX_JUNCTIONS];
    match town_labels(text, source, departure, &mut labels, &mut predecessors) {
        Err(fault) => refuse(output, fault.refusal, fault.line),
        Ok(junctions) => {
            let count = junctions as usize;
            put_table(output, &labels[..count], &predecessors[..count])
        }
    }
}

pub fn arrivals(input: &[u8], output: &mut [u8; OUTPUT]) -> Text
    ensures length { result.length ≡ length (text_of_arrivals input.now) }
    ensures refused { result.refused ≡ is_refusal (answer_to input.now) }
    ensures output { output.new ≡ written (text_of_arrivals input.now) output.old }
{
    if MAX_TEXT < input.len() {
        return refuse(output, Refusal::TextLength, 0);
    }
    let Some(question) = question_in(input) else {
        return refuse(output, Refusal::FieldForm, 0);
    };
    town_arrivals(
        &input[question.town..],
        question.source,
        question.departure,
        output,
    )
}
