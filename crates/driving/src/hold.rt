// The hold at an arc's stop line, which is waited out after the arrival.
ghost use Rattle.std.specs.Prelude.{◌≡◌, ℕ, ◌+◌, ◌<◌, ◌≤◌, length};
ghost use Rattle.model.specs.Ticks.{last, arrived_at};
ghost use Rattle.model.specs.Flow.{spans_of, arrival};
ghost use Rattle.model.specs.Holds.{arrival_with_hold};
ghost use Rattle.model.specs.Intervals.{FencesKept, interval_of_lem, speed_at, tick_and_interval?};
ghost use Rattle.driving.specs.ArcKept.{ArcKept};
ghost use Rattle.driving.specs.InPlan.{InPlan};

use crate::drive::drive;
use crate::interval::{contains, interval_of};
use crate::road::Road;
use model::tick::{Arrival, Tick};

// The interval of a tick that comes soon after another's. Where intervals are long, few holds pass a fence: the other's interval is tried first.
fn interval_near(fences: &[u32], interval: usize, tick: u32) -> usize
    requires { interval < length fences.now }
    ensures value { FencesKept fences.now → result ≡ interval_of_lem fences.now tick }
    ensures upper_bound { result < length fences.now }
{
    if contains(fences, interval, tick) {
        interval
    } else {
        interval_of(fences, tick)
    }
}

// What an arc's hold makes of an arrival: the tick at which it ends, with its interval, or none where that is after the last tick.
fn wait_out(road: &Road, arrived: Arrival) -> Option<Arrival>
    requires { arrived.interval < length road.now.fences.now }
    ensures result_value { FencesKept road.now.fences.now → arrived.tick.number ≤ last →
        arrived.interval ≡ interval_of_lem road.now.fences.now arrived.tick.number →
        arrived_at result ≡ tick_and_interval? road.now.fences.now (arrived.tick.number + road.now.hold) }
    ensures in_plan { InPlan road.now.fences.now result }
{
    // An arc without a hold costs this test alone.
    if road.hold == 0 {
        return Some(arrived);
    }
    let ends = (arrived.tick.number as u64) + (road.hold as u64);
    if (Tick::LAST as u64) < ends {
        return None;
    }
    let released = ends as u32;
    Some(Arrival {
        tick: Tick { number: released },
        interval: interval_near(road.fences, arrived.interval, released),
    })
}

// What a hold makes of what driving an arc gave: an arrival is waited out, and none stays none.
pub(crate) fn with_hold(road: &Road, driven: Option<Arrival>) -> Option<Arrival>
    requires { InPlan road.now.fences.now driven }
    ensures result_value { FencesKept road.now.fences.now → (v : ℕ → ℕ) (spans s : ℕ) →
        arrived_at driven ≡ tick_and_interval? road.now.fences.now (arrival v spans s) →
        arrived_at result ≡ tick_and_interval? road.now.fences.now (arrival_with_hold v spans road.now.hold s) }
    ensures in_plan { InPlan road.now.fences.now result }
{
    wait_out(road, driven?)
}

// Drives an arc and waits out its hold: the arrival is the old one plus the hold. Of an arc that breaks the rules it says as little as `drive`.
// It belongs into a caller's loop over arcs: as a call it hands its answer over in memory.
#[inline(always)]
pub fn drive_with_hold(road: &Road, departure: u32, interval: usize) -> Option<Arrival>
    ensures result_value { ArcKept departure interval road.now.metres road.now.fences.now road.now.speeds.now → arrived_at result
        ≡ tick_and_interval? road.now.fences.now
        (arrival_with_hold (speed_at road.now.fences.now road.now.speeds.now) (spans_of road.now.metres) road.now.hold departure) }
    ensures in_plan { InPlan road.now.fences.now result }
{
    with_hold(road, drive(road, departure, interval))
}
