// What the program prints for its whole input.
ghost use Rattle.std.specs.Prelude.{◌≡◌, ◌*◌, ◌≤◌, min, length, take, []};
ghost use Rattle.model.specs.NetworkRules.{network_check_lem};
ghost use Rattle.model.specs.Parties.{brigade};
ghost use Rattle.model.specs.Rules.{replied, written};
ghost use Rattle.model.specs.Lent.{lent_network};
ghost use Rattle.refusals.specs.Answers.{outcome_of};
ghost use Rattle.sheeting.specs.Sheet.{sheet_answer, sheet_figures_after};
ghost use Rattle.formatting.specs.Texts.{is_refusal};
ghost use Rattle.formatting.specs.Printed.{PrintedAnswer};
ghost use Rattle.sheet_text.specs.Answer.{network_sheet_lem, town_sheet_lem, sheet_for, lines_of, sheet_text_lem};
ghost use Rattle.sheet_text.specs.Code.Parts.{PartsFit};

use crate::lines::put_sheet;
use formatting::text::{OUTPUT, Text, refuse};
use loading::town::Town;
use model::limit::MAX_JUNCTIONS;
use model::network::Network;
use model::party::BRIGADE;
use question_line::line::{Asked, QUESTION, numbers_line};
use refusals::refusal::Refusal;
use sheeting::sheet::{FIGURES, MAX_DEPARTURES, sheet};
use townfile::limit::MAX_TEXT;

// One departure more than a list may have, so that a longer list is refused without being kept whole.
const LISTED: usize = MAX_DEPARTURES + 1;

// Lends the first entries of both buffers to the sheet: a label for each departure and junction, and each junction's figures.
fn sheet_parts(
    network: &Network<'_>,
    source: u32,
    departures: &[u32],
    labels: &mut [u32],
    figures: &mut [u32],
) -> Result<(), Refusal>
    requires { PartsFit network.now.junctions departures.now labels.old figures.old }
    ensures answer { outcome_of result ≡
        sheet_answer (lent_network network.now []) brigade source departures.now
        (take (length departures.now * network.now.junctions) labels.old) (take (4 * network.now.junctions) figures.old) }
    ensures figures { take (4 * network.now.junctions) figures.new ≡
        sheet_figures_after (lent_network network.now []) brigade source departures.now
        (take (length departures.now * network.now.junctions) labels.old) (take (4 * network.now.junctions) figures.old) }
{
    let count = network.junctions;
    let labels_end = departures.len() * count;
    let figures_end = FIGURES * count;
    let no_closures = [[0u32; 4]; 0];
    sheet(
        network,
        &no_closures,
        BRIGADE,
        source,
        departures,
        &mut labels[..labels_end],
        &mut figures[..figures_end],
    )
}

// The sheet of a network.
fn network_sheet(
    network: &Network<'_>,
    source: u32,
    departures: &[u32],
    output: &mut [u8; OUTPUT],
) -> Text
    requires speeds_value { network_check_lem (lent_network network.now []) ≡ replied tt }
    requires departures_len_bound { length departures.now ≤ 97 }
    ensures { PrintedAnswer lines_of (network_sheet_lem (lent_network network.now []) source departures.now) output.old output.new result }
{
    let mut labels = [0u32; LISTED * MAX_JUNCTIONS];
    let mut figures = [0u32; FIGURES * MAX_JUNCTIONS];
    match sheet_parts(network, source, departures, &mut labels, &mut figures) {
        Err(refusal) => refuse(output, refusal, 0),
        Ok(()) => put_sheet(output, network.junctions, &figures),
    }
}

// The sheet of the town of a town file.
fn town_sheet(text: &[u8], source: u32, departures: &[u32], output: &mut [u8; OUTPUT]) -> Text
    requires { length departures.now ≤ 97 }
    ensures { PrintedAnswer lines_of (town_sheet_lem text.now source departures.now) output.old output.new result }
{
    let mut town = Town::empty();
    match town.load(text) {
        Err(fault) => refuse(output, fault.refusal, fault.line),
        Ok(counts) => network_sheet(&town.network(counts), source, departures, output),
    }
}

// How many of the line's numbers are kept.
fn kept_count(count: usize) -> usize
    ensures { result ≡ min count 98 }
{
    count.min(LISTED + 1)
}

// The first number is the source, and the others are the departures.
pub fn sheet_text(input: &[u8], output: &mut [u8; OUTPUT]) -> Text
    ensures length { result.length ≡ length (sheet_text_lem input.now) }
    ensures refused { result.refused ≡ is_refusal (sheet_for input.now) }
    ensures output { output.new ≡ written (sheet_text_lem input.now) output.old }
{
    if MAX_TEXT < input.len() {
        return refuse(output, Refusal::TextLength, 0);
    }
    let mut numbers = [0u32; LISTED + 1];
    let Some(Asked { count, next }) = numbers_line(QUESTION, input, &mut numbers) else {
        return refuse(output, Refusal::FieldForm, 0);
    };
    if count == 0 {
        return refuse(output, Refusal::FieldForm, 0);
    }
    let end = kept_count(count);
    town_sheet(&input[next..], numbers[0], &numbers[1..end], output)
}
