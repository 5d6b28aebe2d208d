// Numbers to the end of a line. The reading goes on after one outside its limits, since a field of the wrong form counts first.
ghost use Rattle.std.specs.Prelude.{◌≡◌};
ghost use Rattle.model.specs.Rules.{fences_keep_lem};
ghost use Rattle.number_rows.specs.NumbersRead.{numbers_read};

use crate::limits::fence_keeps;
use fields::field::{at_line_end, read_field};
use refusals::refusal::Refusal;

// Where numbers that fill the rest of the line end, if they are as many as they should be and within their limits.
pub fn fences_read(text: &[u8], at: usize, count: u32) -> Result<usize, Refusal>
    ensures { result ≡ numbers_read fences_keep_lem count text.now at }
{
    let mut i = at;
    let mut before = 0;
    let mut within = true;
    for k in 0..count {
        let Some(fence) = read_field(text, i) else {
            return Err(Refusal::FieldForm);
        };
        within &= fence_keeps(k, before, fence.value);
        before = fence.value;
        i = fence.next;
    }
    numbers_end(text, i, within)
}

// No number is left to come.
pub fn numbers_end(text: &[u8], at: usize, within: bool) -> Result<usize, Refusal>
    ensures { result ≡ numbers_read (λ numbers. within) 0 text.now at }
{
    if !at_line_end(text, at) {
        return Err(Refusal::FieldForm);
    }
    if !within {
        return Err(Refusal::FieldValue);
    }
    Ok(at)
}
