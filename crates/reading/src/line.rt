// One line of a town file: what it adds to the progress, or its first fault of 23 to 26. The line's length and its line feed are
// the scan's.
ghost use Rattle.std.specs.Prelude.{◌≡◌};
ghost use Rattle.townfile.specs.Lines.{arc_fields, arc_keeps_lem};
ghost use Rattle.number_rows.specs.NumbersRead.{numbers_read};
ghost use Rattle.refusals.specs.Answers.{outcome_of};
ghost use Rattle.reading.specs.LineSteps.{step_of_line};
ghost use Rattle.reading.specs.Code.Kinds.{town_step, fences_step, junction_step, arc_step, comment_step};

use crate::limits::{arc_fits, junction_keeps, town_keeps};
use fields::field::{mark_at, name_at, printable, read_field};
use number_rows::numbers::{fences_read, numbers_end};
use number_rows::speeds::{long_row, row_read};
use refusals::refusal::Refusal;
use townfile::mark::{ARC, COMMENT, FENCES, HELD_TOWN, JUNCTION, TOWN};
use townfile::progress::Progress;

// What is settled behind a line, and where the line ends.
#[derive(Clone, Copy)]
pub struct LineRead {
    pub progress: Progress,
    pub end: usize,
}

// ---- A line of each kind, from the place behind its mark

// TN, or TW in the new form.
fn town_line(progress: Progress, held: bool, text: &[u8], at: usize) -> Result<LineRead, Refusal>
    ensures { outcome_of result ≡ town_step progress held text.now at }
{
    if progress.turn != Progress::TOWN_DUE {
        return Err(Refusal::MarkOutOfTurn);
    }
    let Some(junctions) = read_field(text, at) else {
        return Err(Refusal::FieldForm);
    };
    let Some(intervals) = read_field(text, junctions.next) else {
        return Err(Refusal::FieldForm);
    };
    let within = town_keeps(junctions.value, intervals.value);
    let end = numbers_end(text, intervals.next, within)?;
    Ok(LineRead {
        progress: progress.after_town(held, junctions.value, intervals.value),
        end,
    })
}

fn fences_line(progress: Progress, text: &[u8], at: usize) -> Result<LineRead, Refusal>
    ensures { outcome_of result ≡ fences_step progress text.now at }
{
    if progress.turn != Progress::FENCES_DUE {
        return Err(Refusal::MarkOutOfTurn);
    }
    let end = fences_read(text, at, progress.intervals)?;
    Ok(LineRead {
        progress: progress.after_fences(),
        end,
    })
}

#[tactic(auto, unfolding(crate::specs::Code::Kinds::junction_step))]
fn junction_line(progress: Progress, text: &[u8], at: usize) -> Result<LineRead, Refusal>
    ensures { outcome_of result ≡ junction_step progress text.now at }
{
    if progress.turn != Progress::NAMES_DUE {
        return Err(Refusal::MarkOutOfTurn);
    }
    let Some(junction) = read_field(text, at) else {
        return Err(Refusal::FieldForm);
    };
    let Some(end) = name_at(text, junction.next) else {
        return Err(Refusal::FieldForm);
    };
    if !junction_keeps(progress, junction.value) {
        return Err(Refusal::FieldValue);
    }
    Ok(LineRead {
        progress: progress.after_name(junction.value + 1),
        end,
    })
}

// The numbers of an arc: tail, head and length, then the speeds, and in the new form the hold. It answers where they end.
fn arc_read(progress: Progress, text: &[u8], at: usize) -> Result<usize, Refusal>
    ensures { result ≡ numbers_read (arc_keeps_lem progress) (arc_fields progress) text.now at }
{
    let Some(tail) = read_field(text, at) else {
        return Err(Refusal::FieldForm);
    };
    let Some(head) = read_field(text, tail.next) else {
        return Err(Refusal::FieldForm);
    };
    let Some(metres) = read_field(text, head.next) else {
        return Err(Refusal::FieldForm);
    };
    // Only a row that can still be within its limits is worth the short reading. Any other may still be of the wrong form.
    if !arc_fits(progress, tail.value, head.value, metres.value) {
        long_row(text, metres.next, progress.intervals, progress.held)?;
        return Err(Refusal::FieldValue);
    }
    row_read(text, metres.next, progress.intervals, progress.held)
}

fn arc_line(progress: Progress, text: &[u8], at: usize) -> Result<LineRead, Refusal>
    ensures { outcome_of result ≡ arc_step progress text.now at }
{
    if progress.turn < Progress::NAMES_DUE {
        return Err(Refusal::MarkOutOfTurn);
    }
    let end = arc_read(progress, text, at)?;
    // Only an arc within the limits is counted.
    Ok(LineRead {
        progress: progress.after_arc(progress.arcs + 1),
        end,
    })
}

fn comment_line(progress: Progress, text: &[u8], at: usize) -> Result<LineRead, Refusal>
    ensures { outcome_of result ≡ comment_step progress text.now at }
{
    if text.len() <= at {
        return Ok(LineRead { progress, end: at });
    }
    match text[at] {
        b'\n' => Ok(LineRead { progress, end: at }),
        b' ' => {
            let Some(end) = printable(text, at) else {
                return Err(Refusal::FieldForm);
            };
            Ok(LineRead { progress, end })
        }
        _ => Err(Refusal::FieldForm),
    }
}

// Any line, by its mark.
pub fn read_line(progress: Progress, text: &[u8], at: usize) -> Result<LineRead, Refusal>
    ensures { outcome_of result ≡ step_of_line progress text.now at }
{
    let mark = mark_at(text, at);
    match mark {
        TOWN | HELD_TOWN => town_line(progress, mark == HELD_TOWN, text, at + 2),
        FENCES => fences_line(progress, text, at + 2),
        JUNCTION => junction_line(progress, text, at + 2),
        ARC => arc_line(progress, text, at + 2),
        COMMENT => comment_line(progress, text, at + 2),
        _ => Err(Refusal::UnknownMark),
    }
}
