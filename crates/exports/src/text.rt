// Load, Name and the converters, over a town file.
ghost use Rattle.std.specs.Prelude.{◌≡◌, ◌+◌, ◌*◌, ◌^◌, true, false};
ghost use Rattle.refusals.specs.Refusals.{number_of};
ghost use Rattle.townfile.specs.Load.{load_answer, tables_after};
ghost use Rattle.townfile.specs.Name.{name_place_lem};
ghost use Rattle.townfile.specs.Lent.{tables_to_fill, left_tables};
ghost use Rattle.exports.specs.Codes.{load_code_lem, length_code_lem, place_code};
ghost use Rattle.conversion.specs.Conversion.{convert_answer, output_after};
ghost use Rattle.townfile.specs.Answers.{reading_of};

use crate::bit::{BIT_16, BIT_32, BIT_63};
use converting::convert::{to_new, to_old};
use loading::load::load;
use naming::name::name_place;
use townfile::fault::Fault;
use townfile::tables::Tables;

// 2^63 + the refusal's number × 2^32 + its line.
fn fault_code(fault: Fault) -> u64
    ensures { result ≡ 2 ^ 63 + number_of fault.refusal * 2 ^ 32 + fault.line }
{
    BIT_63 + fault.refusal.number() as u64 * BIT_32 + fault.line as u64
}

// junctions + intervals × 2^16 + arcs × 2^32, or 2^63 + the refusal's number × 2^32 + its line.
#[unsafe(no_mangle)]
pub extern "C" fn exports_load(
    text: &[u8],
    fences: &mut [u32],
    tails: &mut [u16],
    heads: &mut [u16],
    lengths: &mut [u32],
    holds: &mut [u16],
    speeds: &mut [u8],
) -> u64
    ensures answer { result ≡ load_code_lem (load_answer text.now (tables_to_fill fences tails heads lengths holds speeds)) }
    ensures tables { left_tables fences tails heads lengths holds speeds ≡ tables_after text.now (tables_to_fill fences tails heads lengths holds speeds) }
{
    let mut tables = Tables {
        fences,
        tails,
        heads,
        lengths,
        holds,
        speeds,
    };
    match load(text, &mut tables) {
        Ok(counts) => {
            counts.junctions as u64 + counts.intervals as u64 * BIT_16 + counts.arcs as u64 * BIT_32
        }
        Err(fault) => fault_code(fault),
    }
}

// Where the name starts × 2^32 + its length; 0 where there is none.
#[unsafe(no_mangle)]
pub extern "C" fn exports_name(text: &[u8], junction: u32) -> u64
    ensures { result ≡ place_code (name_place_lem text.now junction) }
{
    let place = name_place(text, junction);
    place.start as u64 * BIT_32 + place.length as u64
}

// The length of a converter's result, or 2^63 + the refusal's number × 2^32 + its line.
fn length_code(answer: Result<usize, Fault>) -> u64
    ensures { result ≡ length_code_lem (reading_of answer) }
{
    match answer {
        Ok(length) => length as u64,
        Err(fault) => fault_code(fault),
    }
}

#[unsafe(no_mangle)]
pub extern "C" fn exports_to_new(text: &[u8], output: &mut [u8]) -> u64
    ensures answer { result ≡ length_code_lem (convert_answer true text.now output.old) }
    ensures output { output.new ≡ output_after true text.now output.old }
{
    let answer = to_new(text, output);
    length_code(answer)
}

#[unsafe(no_mangle)]
pub extern "C" fn exports_to_old(text: &[u8], output: &mut [u8]) -> u64
    ensures answer { result ≡ length_code_lem (convert_answer false text.now output.old) }
    ensures output { output.new ≡ output_after false text.now output.old }
{
    let answer = to_old(text, output);
    length_code(answer)
}
