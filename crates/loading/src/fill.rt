// Filling the tables from a text that has no fault.
ghost use Rattle.std.specs.Prelude.{◌≡◌, true, cond, ◌+◌, ◌*◌, ◌≤◌, ◌<◌, length, get_or, set, take, drop};
ghost use Rattle.townfile.specs.Grammar.{network_of};
ghost use Rattle.townfile.specs.Tables.{town_of};
ghost use Rattle.townfile.specs.Load.{holding};
ghost use Rattle.townfile.specs.Lent.{lent_tables, SameTables};
ghost use Rattle.fields.specs.Fields.{line_from, field_keeps, numbers_from};
ghost use Rattle.loading.specs.Code.Filling.{EndsInside, taken_at, NumbersFill, SpeedsFill, Behind, ArcFills, ArcHasRoom, with_arc, Fillable};

use fields::field::{Field, line_end, mark_at};
use townfile::mark::{ARC, FENCES};
use townfile::tables::Tables;

// The number of the field at a place. The scan has shown that it has the form and that its line ends in a line feed, so nothing is
// tested again: the first byte that is no digit ends it. A speed has mostly two digits, so only those behind the second make a loop.
fn take_number(text: &[u8], at: usize) -> Field
    requires at_value { field_keeps text.now at ≡ true }
    requires ends_inside { EndsInside text.now at }
    ensures { result ≡ taken_at text.now at }
{
    let first = text[at + 1];
    let mut value = (first - b'0') as u32;
    let next = at + 2;
    let second = text[next];
    match second {
        b'0'..=b'9' => {
            value = value * 10 + ((second - b'0') as u32);
        }
        _ => {
            return Field { value, next };
        }
    }
    let mut i = next + 1;
    loop {
        let byte = text[i];
        match byte {
            b'0'..=b'9' => {
                value = value * 10 + ((byte - b'0') as u32);
            }
            _ => {
                return Field { value, next: i };
            }
        }
        i += 1;
    }
}

// Writes the numbers that fill the rest of a line, and answers where the line ends.
fn fill_fences(text: &[u8], at: usize, fences: &mut [u32]) -> usize
    requires { NumbersFill (length fences.old) text.now at }
    ensures end { result ≡ at + length (line_from text.now at) }
    ensures fences { fences.new ≡ numbers_from text.now at }
{
    let mut i = at;
    for fence in fences.iter_mut() {
        let taken = take_number(text, i);
        *fence = taken.value;
        i = taken.next;
    }
    i
}

// Writes the next numbers of a line, and answers the place behind them. Not one function with the fences': the cast rests on the rule on speeds.
fn fill_speeds(text: &[u8], at: usize, speeds: &mut [u8]) -> usize
    requires { SpeedsFill (length speeds.old) text.now at }
    ensures end { Behind (length speeds.old) text.now at result }
    ensures speeds { speeds.new ≡ take (length speeds.old) (numbers_from text.now at) }
{
    let mut i = at;
    for speed in speeds.iter_mut() {
        let taken = take_number(text, i);
        *speed = taken.value as u8;
        i = taken.next;
    }
    i
}

// The hold that ends an arc's line in the new form, and where the line ends. In the old form it is 0, and the line ends here.
fn take_hold(text: &[u8], at: usize, held: bool) -> Field
    requires { NumbersFill (cond held 1 0) text.now at }
    ensures value { result.value ≡ get_or (numbers_from text.now at) 0 0 }
    ensures end { result.next ≡ at + length (line_from text.now at) }
{
    if held {
        take_number(text, at)
    } else {
        Field { value: 0, next: at }
    }
}

// The arc whose fields stand at a place, and where its line ends.
fn fill_arc(
    text: &[u8],
    at: usize,
    arc: usize,
    intervals: usize,
    held: bool,
    tables: &mut Tables<'_>,
) -> usize
    requires arc_fills { ArcFills intervals held text.now at }
    requires room { ArcHasRoom intervals arc (lent_tables tables.old) }
    ensures end { result ≡ at + length (line_from text.now at) }
    ensures tables { lent_tables tables.new ≡ with_arc intervals arc (numbers_from text.now at) (lent_tables tables.old) }
    ensures same { SameTables tables.old tables.new }
{
    let tail = take_number(text, at);
    let head = take_number(text, tail.next);
    let metres = take_number(text, head.next);
    tables.tails[arc] = tail.value as u16;
    tables.heads[arc] = head.value as u16;
    tables.lengths[arc] = metres.value;
    let start = arc * intervals;
    let end = start + intervals;
    let next = fill_speeds(text, metres.next, &mut tables.speeds[start..end]);
    let hold = take_hold(text, next, held);
    tables.holds[arc] = hold.value as u16;
    hold.next
}

// The lines are walked by hand: filling from a line tells where it ends.
pub(crate) fn fill(text: &[u8], intervals: usize, held: bool, tables: &mut Tables<'_>)
    requires { Fillable intervals held text.now (lent_tables tables.old) }
    ensures tables { lent_tables tables.new ≡ holding (network_of (town_of text.now)) (lent_tables tables.old) }
    ensures same { SameTables tables.old tables.new }
{
    let mut at = 0;
    let mut fence = 0;
    let mut arc = 0;
    while at < text.len() {
        let mark = mark_at(text, at);
        match mark {
            FENCES => {
                let start = fence;
                fence += intervals;
                at = fill_fences(text, at + 2, &mut tables.fences[start..fence]) + 1;
            }
            ARC => {
                at = fill_arc(text, at + 2, arc, intervals, held, tables) + 1;
                arc += 1;
            }
            _ => {
                at = line_end(text, at) + 1;
            }
        }
    }
}
