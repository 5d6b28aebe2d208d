// The interval of a tick, sought from another interval. Junctions with neighbouring numbers are often reached in the same part of the day, so that from the
// last interval found it is a few steps, back or on.
ghost use Rattle.std.specs.Prelude.{suc, ◌≤◌, ◌<◌, ◌≡◌, length, get_or};
ghost use Rattle.model.specs.Intervals.{FencesKept, interval_of_lem};

use driving::interval::time_of_day;

// `interval < length fences` stays a clause: it is the bound of an index, and each function has a table of its own at hand.

// Back to an interval that starts by the time.
fn step_back(fences: &[u32], interval: usize, time: u32) -> usize
    requires { interval < length fences.now }
    ensures result_bound { get_or fences.now 0 0 ≡ 0 → get_or fences.now result 0 ≤ time }
    ensures upper_bound { result < length fences.now }
{
    for k in (1..interval + 1).rev() {
        if fences[k] <= time {
            return k;
        }
    }
    0
}

// On to the last interval that starts by the time.
fn step_on(fences: &[u32], interval: usize, time: u32) -> usize
    requires { interval < length fences.now }
    ensures result_bound { get_or fences.now interval 0 ≤ time → (get_or fences.now result 0 ≤ time)
        × (suc result < length fences.now → time < get_or fences.now (suc result) 0) }
    ensures upper_bound { result < length fences.now }
{
    for next in interval + 1..fences.len() {
        if time < fences[next] {
            return next - 1;
        }
    }
    fences.len() - 1
}

// The interval of a tick, from any other.
pub(crate) fn interval_from(fences: &[u32], interval: usize, tick: u32) -> usize
    requires { interval < length fences.now }
    ensures value { FencesKept fences.now → result ≡ interval_of_lem fences.now tick }
    ensures upper_bound { result < length fences.now }
{
    let time = time_of_day(tick);
    step_on(fences, step_back(fences, interval, time), time)
}
