// Name: a junction's name, as a part of the text, and where that part stands.
ghost use Rattle.std.specs.Prelude.{◌≡◌};
ghost use Rattle.townfile.specs.Bytes.{line_feed, pieces};
ghost use Rattle.townfile.specs.Grammar.{Each};
ghost use Rattle.townfile.specs.Name.{name_of, place_among, name_place_lem};
ghost use Rattle.fields.specs.Fields.{line_from};
ghost use Rattle.naming.specs.Code.Naming.{LineNames, name_start_lem};

use fields::field::{line_end, mark_at, read_field};
use scanning::scan::scan;
use townfile::mark::JUNCTION;
use townfile::part::Part;

// Where the name begins, if the line names the junction asked for.
fn name_start(text: &[u8], at: usize, junction: u32) -> Option<usize>
    requires { LineNames (line_from text.now at) }
    ensures { result ≡ name_start_lem text.now at junction }
{
    if mark_at(text, at) != JUNCTION {
        return None;
    }
    let number = read_field(text, at + 2)?;
    if number.value != junction {
        return None;
    }
    Some(number.next + 1)
}

// The lines are walked by hand: the answer needs their places in the text.
fn find_name(text: &[u8], junction: u32) -> Part
    requires { Each LineNames (pieces line_feed text.now) }
    ensures { result ≡ place_among junction 0 (pieces line_feed text.now) }
{
    let mut at = 0;
    while at < text.len() {
        let end = line_end(text, at);
        if let Some(start) = name_start(text, at, junction) {
            return Part {
                start,
                length: end - start,
            };
        }
        at = end + 1;
    }
    Part {
        start: 0,
        length: 0,
    }
}

pub fn name_place(text: &[u8], junction: u32) -> Part
    ensures { result ≡ name_place_lem text.now junction }
{
    if let Err(_) = scan(text) {
        return Part {
            start: 0,
            length: 0,
        };
    }
    find_name(text, junction)
}

pub fn name(text: &[u8], junction: u32) -> &[u8]
    ensures { result.now ≡ name_of text.now junction }
{
    let place = name_place(text, junction);
    let start = place.start;
    let end = start + place.length;
    &text[start..end]
}
