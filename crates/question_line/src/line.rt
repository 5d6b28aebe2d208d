// The first line of a text. It is read twice: a line of another form leaves the table alone.
ghost use Rattle.std.specs.Prelude.{◌≡◌, true, length, take};
ghost use Rattle.model.specs.Rules.{written};
ghost use Rattle.fields.specs.Fields.{numbers_from};
ghost use Rattle.question_line.specs.Line.{asked_by, numbers_after};
ghost use Rattle.question_line.specs.Code.Counting.{only_numbers, counted_from};

use fields::field::{mark_at, read_field};
use townfile::mark::{LINE_FEED, NONE};

// `QU`, the mark of a program's question.
pub const QUESTION: u16 = 0x5155;

// How many numbers the line has, and the place behind its line feed.
#[derive(Clone, Copy, Debug, PartialEq, Eq)]
pub struct Asked {
    pub count: usize,
    pub next: usize,
}

// The numbers from a place up to the line feed, if only numbers stand there.
fn count_numbers(text: &[u8], start: usize) -> Option<Asked>
    ensures { result ≡ counted_from 0 text.now start }
{
    // The place goes on by what a field has, so no range has it.
    let mut at = start;
    let mut count: usize = 0;
    while at < text.len() {
        if text[at] == LINE_FEED {
            return Some(Asked {
                count,
                next: at + 1,
            });
        }
        let field = read_field(text, at)?;
        at = field.next;
        count += 1;
    }
    None
}

fn copy_numbers(text: &[u8], start: usize, numbers: &mut [u32])
    requires { only_numbers text.now start ≡ true }
    ensures { numbers.new ≡ written (take (length numbers.old) (numbers_from text.now start)) numbers.old }
{
    let mut at = start;
    for number in numbers.iter_mut() {
        let Some(field) = read_field(text, at) else {
            return;
        };
        *number = field.value;
        at = field.next;
    }
}

// The table starts with as many of the numbers as it has room for.
pub fn numbers_line(mark: u16, text: &[u8], numbers: &mut [u32]) -> Option<Asked>
    ensures answer { result ≡ asked_by mark text.now }
    ensures numbers { numbers.new ≡ numbers_after mark text.now numbers.old }
{
    if mark == NONE {
        return None;
    }
    if mark_at(text, 0) != mark {
        return None;
    }
    let asked = count_numbers(text, 2)?;
    copy_numbers(text, 2, numbers);
    Some(asked)
}
