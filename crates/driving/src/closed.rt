// The arrival on an arc with closures, on which a vehicle stands from a closure's first tick up to its end. An arc that has none is driven by
// `drive`, which looks at no list.
ghost use Rattle.std.specs.Prelude.{◌≡◌, ◌+◌, ◌-◌, ◌%◌, ◌^◌, ◌<◌, min, ◌||◌, length, if◌then◌else◌, nat_lt, slice_index, slice_index_or};
ghost use Rattle.model.specs.Ticks.{day, arrived_at};
ghost use Rattle.model.specs.Closures.{closes?, closed?, closure_of, closures_of, with_closures};
ghost use Rattle.model.specs.Flow.{spans_of, arrival};
ghost use Rattle.model.specs.Holds.{arrival_with_hold};
ghost use Rattle.model.specs.Intervals.{time_of_day_lem, interval_after_lem, speed_at, tick_and_interval?};
ghost use Rattle.driving.specs.ArcKept.{ArcKept};
ghost use Rattle.driving.specs.InPlan.{InPlan};
ghost use Rattle.driving.specs.Code.Closed.{next_edge, same_until, PieceFrom};

use crate::drive::{covered_until, ticks_for};
use crate::hold::with_hold;
use crate::interval::{interval_by_end, interval_end, time_of_day};
use crate::road::Road;
use model::limit::SPANS_PER_METRE;
use model::tick::{Arrival, Tick};

// An arc with a list in which all records that name it stand. Others may stand there too.
#[derive(Clone, Copy)]
pub struct Works<'a> {
    pub arc: u32,
    pub closures: &'a [[u32; 4]],
}

// What a tick finds on an arc: whether it is closed, and the tick up to which that stays so.
#[derive(Clone, Copy)]
struct Stretch {
    closed: bool,
    until: u32,
}

// What one more record makes of a stretch: one that starts later cuts it there, one that contains the tick closes it and cuts it at its end.
#[tactic(auto, unfolding(crate::specs::Code::Closed::next_edge))]
fn with_closure(stretch: Stretch, closure: [u32; 4], arc: u32, tick: u32) -> Stretch
    ensures closed_value { result.closed ≡ (closes? (closure_of closure) arc tick || stretch.closed) }
    ensures until_value { result.until ≡ next_edge (closure_of closure) arc tick stretch.until }
{
    let [its_arc, first, end, _] = closure;
    if its_arc != arc {
        return stretch;
    }
    if tick < first {
        return Stretch {
            until: stretch.until.min(first),
            ..stretch
        };
    }
    if tick < end {
        return Stretch {
            closed: true,
            until: stretch.until.min(end),
        };
    }
    stretch
}

// The stretch from a tick on, up to the limit at most: one scan of the list.
fn stretch_at(works: &Works, tick: u32, limit: u32) -> Stretch
    ensures closed_value { result.closed ≡ closed? (closures_of works.now.closures.now) works.now.arc tick }
    ensures until_value { result.until ≡ same_until (closures_of works.now.closures.now) works.now.arc tick limit }
{
    let mut stretch = Stretch {
        closed: false,
        until: limit,
    };
    for closure in works.closures {
        stretch = with_closure(stretch, *closure, works.arc, tick);
    }
    stretch
}

// The tick at which interval k of a tick's day ends. The sum wraps only where the fences break the rules.
fn end_of(fences: &[u32], k: usize, tick: u32) -> u32
    requires { k < length fences.now }
    ensures { result ≡ (tick - time_of_day_lem tick + slice_index_or fences.now (k + 1) day) % 2 ^ 32 }
{
    (tick - time_of_day(tick)).wrapping_add(interval_end(fences, k))
}

// The speed in interval k, which is 0 where the arc is closed.
fn speed_in(speeds: &[u8], k: usize, closed: bool) -> u8
    requires { k < length speeds.now }
    ensures { result ≡ (if closed then 0 else slice_index speeds.now k) }
{
    if closed { 0 } else { speeds[k] }
}

// A piece of constant speed: the tick up to which it goes, its speed, and the tick at which the interval ends.
#[derive(Clone, Copy)]
struct Piece {
    until: u32,
    speed: u8,
    end: u32,
}

// The piece from a tick on, which is in interval k.
fn piece_from(road: &Road, works: &Works, tick: u32, k: usize) -> Piece
    requires { k < min (length road.now.fences.now) (length road.now.speeds.now) }
    ensures { PieceFrom tick k road.now.fences.now road.now.speeds.now works.now.arc (closures_of works.now.closures.now)
        result.until result.speed result.end }
{
    let end = end_of(road.fences, k, tick);
    let stretch = stretch_at(works, tick, end);
    Piece {
        until: stretch.until,
        speed: speed_in(road.speeds, k, stretch.closed),
        end,
    }
}

// The arrival on an arc with closures, piece by piece: a piece ends at a fence, at midnight or where a closure starts or ends. In each it makes
// the try and takes what is covered off the length left over, as `drive` does. Of an arc that breaks the rules it says as little as `drive`.
pub fn drive_closed(road: &Road, works: &Works, departure: u32, interval: usize) -> Option<Arrival>
    ensures result_value { ArcKept departure interval road.now.metres road.now.fences.now road.now.speeds.now →
        arrived_at result ≡ tick_and_interval? road.now.fences.now
        (arrival (with_closures (closures_of works.now.closures.now) works.now.arc (speed_at road.now.fences.now road.now.speeds.now))
        (spans_of road.now.metres) departure) }
    ensures in_plan { InPlan road.now.fences.now result }
{
    let intervals = road.fences.len().min(road.speeds.len());
    if intervals <= interval {
        return None;
    }
    let mut k = interval;
    let mut tick = departure;
    let mut left = SPANS_PER_METRE * (road.metres as u64);
    // At the last tick nothing more is covered: no piece starts there.
    while tick < Tick::LAST {
        let piece = piece_from(road, works, tick, k);
        let until = piece.until;
        // On an arc that keeps the rules an interval ends after each of its ticks.
        if until <= tick {
            return None;
        }
        let covers = covered_until(until, tick, piece.speed);
        if left <= covers {
            let arrives = tick + ticks_for(left, piece.speed) as u32;
            return Some(Arrival {
                tick: Tick { number: arrives },
                interval: interval_by_end(k, intervals, arrives, piece.end),
            });
        }
        left -= covers;
        tick = until;
        k = interval_by_end(k, intervals, tick, piece.end);
    }
    None
}

// Drives an arc with closures and waits out its hold, which runs on through a closure.
pub fn drive_closed_with_hold(
    road: &Road,
    works: &Works,
    departure: u32,
    interval: usize,
) -> Option<Arrival>
    ensures result_value { ArcKept departure interval road.now.metres road.now.fences.now road.now.speeds.now →
        arrived_at result ≡ tick_and_interval? road.now.fences.now (arrival_with_hold
        (with_closures (closures_of works.now.closures.now) works.now.arc (speed_at road.now.fences.now road.now.speeds.now))
        (spans_of road.now.metres) road.now.hold departure) }
    ensures in_plan { InPlan road.now.fences.now result }
{
    with_hold(road, drive_closed(road, works, departure, interval))
}
