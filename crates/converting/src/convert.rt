// The converters: from the old form to the new, and back.
ghost use Rattle.std.specs.Prelude.{◌≡◌, true, false, ◌*◌, ◌≤◌};
ghost use Rattle.refusals.specs.Refusals.{number_of};
ghost use Rattle.townfile.specs.FirstFault.{refused_at};
ghost use Rattle.conversion.specs.Conversion.{is_form_lem, is_too_long, convert_answer, output_after};
ghost use Rattle.townfile.specs.Answers.{reading_of};
ghost use Rattle.converting.specs.Code.Lines.{InLines, loses_hold_lem, length_by};

use crate::hold::all_unheld;
use crate::lines::put_lines;
use refusals::refusal::Refusal;
use scanning::scan::scan;
use townfile::fault::Fault;
use townfile::limit::MAX_TEXT;

// The text has the wanted form already.
fn is_form(wanted: bool, held: bool) -> bool
    ensures { result ≡ is_form_lem wanted held }
{
    wanted == held
}

// To the new form none is lost.
fn loses_hold(wanted: bool, text: &[u8]) -> bool
    requires { InLines text.now }
    ensures { result ≡ loses_hold_lem wanted text.now }
{
    !wanted && !all_unheld(text)
}

// Each arc's line has two bytes more in the new form.
fn result_length(wanted: bool, length: usize, arcs: u32) -> usize
    requires length_len_bound { length ≤ 65536 }
    requires arcs_in_bounds { wanted ≡ false → 2 * arcs ≤ length }
    ensures { result ≡ length_by wanted length arcs }
{
    let holds = 2 * (arcs as usize);
    if wanted {
        length + holds
    } else {
        length - holds
    }
}

// The result is longer than a text may be, or than the output.
fn lacks_room(length: usize, output: usize) -> bool
    ensures { result ≡ is_too_long length output }
{
    MAX_TEXT < length || output < length
}

// A refusal of the converters' own has no line.
fn refuse(refusal: Refusal) -> Result<usize, Fault>
    ensures { reading_of result ≡ refused_at (number_of refusal) 0 }
{
    Err(Fault { refusal, line: 0 })
}

// `wanted` stays a Bool: an enum or a trait would have to be turned into the Bool of `convert_answer`, `output_after` and `converted` in each clause.
#[tactic(auto, unfolding(model::specs::Rules::first_broken, conversion::specs::Conversion::convert_answer, conversion::specs::Conversion::output_after))]
fn convert(wanted: bool, text: &[u8], output: &mut [u8]) -> Result<usize, Fault>
    ensures answer { reading_of result ≡ convert_answer wanted text.now output.old }
    ensures output { output.new ≡ output_after wanted text.now output.old }
{
    let progress = scan(text)?;
    if is_form(wanted, progress.held) {
        return refuse(Refusal::FormAlready);
    }
    if loses_hold(wanted, text) {
        return refuse(Refusal::HoldDropped);
    }
    let length = result_length(wanted, text.len(), progress.arcs);
    if lacks_room(length, output.len()) {
        return refuse(Refusal::OutputLength);
    }
    Ok(put_lines(wanted, text, output))
}

// What a converter answers is the result's length. Document 02 names both, so that they are two operations.
pub fn to_new(text: &[u8], output: &mut [u8]) -> Result<usize, Fault>
    ensures answer { reading_of result ≡ convert_answer true text.now output.old }
    ensures output { output.new ≡ output_after true text.now output.old }
{
    convert(true, text, output)
}

pub fn to_old(text: &[u8], output: &mut [u8]) -> Result<usize, Fault>
    ensures answer { reading_of result ≡ convert_answer false text.now output.old }
    ensures output { output.new ≡ output_after false text.now output.old }
{
    convert(false, text, output)
}
