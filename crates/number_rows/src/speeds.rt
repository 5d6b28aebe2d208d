// The row of an AR line behind its length: the speeds, and in the new form the hold. Speeds without fault have at most three digits, so they
// are first read straight on as such, without a look behind each number. That short reading decides nothing but success: any other row is
// read field by field, which tells what it comes to.
ghost use Rattle.std.specs.Prelude.{◌≡◌, true, cond, ◌&&◌, [], ◌∷◌, ◌+◌, ◌≤◌, ◌<◌, length, get_or, IfSome};
ghost use Rattle.model.specs.Rules.{every};
ghost use Rattle.townfile.specs.Bytes.{digit};
ghost use Rattle.townfile.specs.Numbers.{decimal};
ghost use Rattle.number_rows.specs.NumbersRead.{numbers_read, row_keeps};
ghost use Rattle.number_rows.specs.Code.ShortSpeeds.{ShortWord, ShortField, ShortRow};

use crate::numbers::numbers_end;
use fields::field::read_field;
use model::limit::{MAX_HOLD, MAX_SPEED};
use refusals::refusal::Refusal;
use townfile::mark::{LINE_FEED, SPACE};

// A space and three digits.
const SHORT_FIELD: usize = 4;

// ---- The short reading: the place up to which it has come, or none where it cannot tell

fn is_digit(byte: u8) -> bool
    ensures { result ≡ digit byte }
{
    matches!(byte, b'0'..=b'9')
}

#[tactic(auto, unfolding(townfile::specs::Numbers::decimal_from))]
fn three_digits(first: u8, second: u8, third: u8) -> u32
    requires { every digit (first ∷ second ∷ third ∷ []) ≡ true }
    ensures { result ≡ decimal (first ∷ second ∷ third ∷ []) }
{
    ((first - b'0') as u32) * 100 + ((second - b'0') as u32) * 10 + ((third - b'0') as u32)
}

// A speed whose first digit is not 0. What stands behind its digits the next step looks at.
fn short_digits(text: &[u8], first: usize) -> Option<usize>
    requires first_in_bounds { first + 3 ≤ length text.now }
    requires bound { 49 ≤ get_or text.now first 0 }
    requires first_bound { get_or text.now first 0 < 58 }
    ensures { IfSome result (ShortWord text.now first) }
{
    if !is_digit(text[first + 1]) {
        return Some(first + 1);
    }
    if !is_digit(text[first + 2]) {
        return Some(first + 2);
    }
    if (MAX_SPEED as u32) < three_digits(text[first], text[first + 1], text[first + 2]) {
        return None;
    }
    Some(first + 3)
}

// A space and a speed.
fn short_speed(text: &[u8], at: usize) -> Option<usize>
    requires { at + 4 ≤ length text.now }
    ensures { IfSome result (ShortField text.now at) }
{
    if text[at] != SPACE {
        return None;
    }
    let first = at + 1;
    let digit = text[first];
    match digit {
        b'0' => Some(first + 1),
        b'1'..=b'9' => short_digits(text, first),
        _ => None,
    }
}

// All speeds of a row, where the text has bytes enough for the longest ones. What stands behind the last one the caller looks at.
// Left a call of its own, its loop stays in registers.
#[inline(never)]
fn short_speeds(text: &[u8], at: usize, count: u32) -> Option<usize>
    ensures { IfSome result (ShortRow text.now at count) }
{
    if text.len() <= at {
        return None;
    }
    if text.len() <= at + SHORT_FIELD * (count as usize) {
        return None;
    }
    let mut i = at;
    for _ in 0..count {
        i = short_speed(text, i)?;
    }
    Some(i)
}

// ---- The hold

// What is left of a row behind its speeds: the hold where the file has holds, and the line's end.
fn row_end(text: &[u8], at: usize, held: bool, within: bool) -> Result<usize, Refusal>
    ensures { result ≡ numbers_read (λ numbers. within && row_keeps 0 numbers) (cond held 1 0) text.now at }
{
    if !held {
        return numbers_end(text, at, within);
    }
    let Some(hold) = read_field(text, at) else {
        return Err(Refusal::FieldForm);
    };
    numbers_end(text, hold.next, within & (hold.value <= MAX_HOLD as u32))
}

// ---- Field by field

// It goes on after a speed above its limit, since a field of the wrong form counts first.
pub fn long_row(text: &[u8], at: usize, count: u32, held: bool) -> Result<usize, Refusal>
    ensures { result ≡ numbers_read (row_keeps count) (count + cond held 1 0) text.now at }
{
    let mut i = at;
    let mut within = true;
    for _ in 0..count {
        let Some(speed) = read_field(text, i) else {
            return Err(Refusal::FieldForm);
        };
        within &= speed.value <= MAX_SPEED as u32;
        i = speed.next;
    }
    row_end(text, i, held, within)
}

// The speeds of an arc, and its hold where the file has holds, up to the line's end.
pub fn row_read(text: &[u8], at: usize, count: u32, held: bool) -> Result<usize, Refusal>
    ensures { result ≡ numbers_read (row_keeps count) (count + cond held 1 0) text.now at }
{
    let Some(end) = short_speeds(text, at, count) else {
        return long_row(text, at, count, held);
    };
    // Only where a word ends here were all digits of the last speed read. It ends at a space before a hold, else at the line's end.
    if held {
        if text[end] == SPACE {
            return row_end(text, end, held, true);
        }
    } else if text[end] == LINE_FEED {
        return row_end(text, end, held, true);
    }
    long_row(text, at, count, held)
}
