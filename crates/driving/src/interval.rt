// The intervals of a day: which one contains a tick, where one ends, and which comes after it.
ghost use Rattle.std.specs.Prelude.{◌≡◌, ◌+◌, ◌<◌, length, slice_index_or, nat_lt, if◌then◌else◌};
ghost use Rattle.model.specs.Ticks.{day};
ghost use Rattle.model.specs.Intervals.{time_of_day_lem, passed, interval_of_lem, interval_after_lem, contains?};

use model::tick::Tick;

// A tick's remainder by the day. A tick of the first day is its own remainder, which saves the division.
pub fn time_of_day(tick: u32) -> u32
    ensures { result ≡ time_of_day_lem tick }
{
    if tick < Tick::DAY {
        return tick;
    }
    tick % Tick::DAY
}

// How many of the fences a time of day has reached.
fn fences_passed(fences: &[u32], time: u32) -> usize
    ensures { result ≡ passed fences.now time }
{
    fences
        .iter()
        .position(|fence| time < *fence)
        .unwrap_or(fences.len())
}

// The time of day at which interval k ends: the next fence, and for the last interval midnight.
pub(crate) fn interval_end(fences: &[u32], k: usize) -> u32
    requires { k < length fences.now }
    ensures { result ≡ slice_index_or fences.now (k + 1) day }
{
    match fences.get(k + 1) {
        Some(fence) => *fence,
        None => Tick::DAY,
    }
}

// The interval after another: after the last of a day comes the first of the next.
fn interval_after(k: usize, intervals: usize) -> usize
    requires { k < intervals }
    ensures value { result ≡ interval_after_lem intervals k }
    ensures upper_bound { result < intervals }
{
    let next = k + 1;
    if next < intervals { next } else { 0 }
}

// The interval of a tick that is in interval k or at its end, where the next one has started.
pub(crate) fn interval_by_end(k: usize, intervals: usize, tick: u32, end: u32) -> usize
    requires { k < intervals }
    ensures value { result ≡ (if nat_lt tick end then k else interval_after_lem intervals k) }
    ensures upper_bound { result < intervals }
{
    if tick < end {
        k
    } else {
        interval_after(k, intervals)
    }
}

// The number of the interval that contains a tick.
#[tactic(auto, unfolding(model::specs::Intervals::interval_of_lem))]
pub fn interval_of(fences: &[u32], tick: u32) -> usize
    ensures { result ≡ interval_of_lem fences.now tick }
{
    fences_passed(fences, time_of_day(tick)).saturating_sub(1)
}

// Whether an interval contains a tick.
pub fn contains(fences: &[u32], interval: usize, tick: u32) -> bool
    ensures { result ≡ contains? fences.now interval tick }
{
    let time = time_of_day(tick);
    interval < fences.len() && fences[interval] <= time && time < interval_end(fences, interval)
}
