// What stands at a place of a line: a field, the end, bytes that can be printed, a name. Nothing here reads past a line feed.
ghost use Rattle.std.specs.Prelude.{◌≡◌, ◌+◌, eqb, length};
ghost use Rattle.townfile.specs.Lines.{first_two};
ghost use Rattle.fields.specs.Fields.{line_from, field_at, printable_rest, name_rest_lem, name_at};
ghost use Rattle.fields.specs.Code.Digits.{just_zero_lem, number_from};

use townfile::limit::{MAX_NAME, MAX_OF_SIX_DIGITS};
use townfile::mark::{LINE_FEED, NONE, SPACE};

// A number, and the place behind it.
#[derive(Clone, Copy, Debug, PartialEq, Eq)]
pub struct Field {
    pub value: u32,
    pub next: usize,
}

// The line feed that ends the line, or the text's end.
pub fn line_end(text: &[u8], at: usize) -> usize
    ensures { result ≡ at + length (line_from text.now at) }
{
    for i in at..text.len() {
        if text[i] == LINE_FEED {
            return i;
        }
    }
    at.max(text.len())
}

pub fn at_line_end(text: &[u8], at: usize) -> bool
    ensures { result ≡ eqb (length (line_from text.now at)) 0 }
{
    text.len() <= at || text[at] == LINE_FEED
}

// The two bytes that begin a line, as one number.
pub fn mark_at(text: &[u8], at: usize) -> u16
    ensures { result ≡ first_two (line_from text.now at) }
{
    if text.len() <= at {
        return NONE;
    }
    let second = at + 1;
    if text.len() <= second {
        return NONE;
    }
    if text[at] == LINE_FEED {
        return NONE;
    }
    if text[second] == LINE_FEED {
        return NONE;
    }
    u16::from_be_bytes([text[at], text[second]])
}

// A number that begins with 0 is just 0: a space follows, the line's end or the text's.
fn just_zero(text: &[u8], end: usize) -> Option<Field>
    ensures { result ≡ just_zero_lem text.now end }
{
    let zero = Some(Field {
        value: 0,
        next: end,
    });
    if text.len() <= end {
        return zero;
    }
    match text[end] {
        b' ' | b'\n' => zero,
        _ => None,
    }
}

// What follows a first digit that is not 0. The value tells how many digits there are, so they are not counted.
// It belongs into its one caller: as a call it hands its answer over in memory.
#[inline(always)]
fn further_digits(text: &[u8], second: usize, digit: u8) -> Option<Field>
    ensures { result ≡ number_from text.now second digit }
{
    let mut value = digit as u32;
    for i in second..text.len() {
        let byte = text[i];
        match byte {
            b'0'..=b'9' => {
                if MAX_OF_SIX_DIGITS < value {
                    return None;
                }
                value = value * 10 + ((byte - b'0') as u32);
            }
            b' ' | b'\n' => {
                return Some(Field { value, next: i });
            }
            _ => {
                return None;
            }
        }
    }
    Some(Field {
        value,
        next: second.max(text.len()),
    })
}

// A space and a number up to the next space or the line's end.
pub fn read_field(text: &[u8], at: usize) -> Option<Field>
    ensures { result ≡ field_at text.now at }
{
    if *text.get(at)? != SPACE {
        return None;
    }
    let first = at + 1;
    let byte = *text.get(first)?;
    match byte {
        b'0' => just_zero(text, first + 1),
        b'1'..=b'9' => further_digits(text, first + 1, byte - b'0'),
        _ => None,
    }
}

// The line's rest, if all of it can be printed.
pub fn printable(text: &[u8], at: usize) -> Option<usize>
    ensures { result ≡ printable_rest text.now at }
{
    for i in at..text.len() {
        let byte = text[i];
        match byte {
            b' '..=b'~' => {}
            b'\n' => {
                return Some(i);
            }
            _ => {
                return None;
            }
        }
    }
    Some(at.max(text.len()))
}

// The line's rest, if it is a name.
fn name_rest(text: &[u8], at: usize) -> Option<usize>
    ensures { result ≡ name_rest_lem text.now at }
{
    let end = printable(text, at)?;
    if end <= at {
        return None;
    }
    if MAX_NAME < end - at {
        return None;
    }
    if text[at] == SPACE {
        return None;
    }
    if text[end - 1] == SPACE {
        return None;
    }
    Some(end)
}

// A space, and a name to the end of the line.
pub fn name_at(text: &[u8], at: usize) -> Option<usize>
    ensures { result ≡ name_at text.now at }
{
    if *text.get(at)? != SPACE {
        return None;
    }
    name_rest(text, at + 1)
}
