// The tests of the rules that an arc's tables share with a network's. Each is the definition's own test, of the whole table.
ghost use Rattle.std.specs.Prelude.{◌≡◌, ◌&&◌, leb, ltb};
ghost use Rattle.model.specs.Rules.{every, rise_from, count_keeps, fences_keep_lem, length_keeps_lem, speed_keeps};

use crate::highest::highest;
use model::limit::{MAX_INTERVALS, MAX_LENGTH, MAX_SPEED};
use model::tick::Tick;

// Each of the limits on a count and on a length allows 1 up to itself.
pub(crate) fn from_1_to(limit: usize, number: usize) -> bool
    ensures { result ≡ (ltb 0 number && leb number limit) }
{
    0 < number && number <= limit
}

pub fn interval_count_keeps(fences: &[u32]) -> bool
    ensures { result ≡ count_keeps fences.now }
{
    from_1_to(MAX_INTERVALS, fences.len())
}

// Each fence is greater than the one before and lies below the day.
#[tactic(auto, using(crate::proofs::Scan::rise_steps))]
fn fences_rise(mut before: u32, fences: &[u32]) -> bool
    ensures { result ≡ rise_from before fences.now }
{
    for fence in fences {
        if *fence <= before || Tick::DAY <= *fence {
            return false;
        }
        before = *fence;
    }
    true
}

// The first fence is 0, and the others rise from there.
#[tactic(auto, using(crate::proofs::Scan::first_steps))]
pub fn fences_keep(fences: &[u32]) -> bool
    ensures { result ≡ fences_keep_lem fences.now }
{
    match fences {
        [] => true,
        [first, others @ ..] => *first == 0 && fences_rise(*first, others),
    }
}

pub fn length_keeps(metres: u32) -> bool
    ensures { result ≡ length_keeps_lem metres }
{
    from_1_to(MAX_LENGTH as usize, metres as usize)
}

pub fn lengths_keep(lengths: &[u32]) -> bool
    ensures { result ≡ every length_keeps_lem lengths.now }
{
    lengths.iter().all(|metres| length_keeps(*metres))
}

#[tactic(auto, using(crate::proofs::HighestScan::highest_within))]
pub fn speeds_keep(speeds: &[u8]) -> bool
    ensures { result ≡ every speed_keeps speeds.now }
{
    highest(0, speeds) <= MAX_SPEED
}
