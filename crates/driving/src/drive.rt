// The arrival on an arc, interval by interval: the engine under every operation that drives one.
ghost use Rattle.std.specs.Prelude.{◌≡◌, ◌-◌, ◌*◌, ◌^◌, ◌≤◌, min, length};
ghost use Rattle.model.specs.Ticks.{arrived_at};
ghost use Rattle.model.specs.Flow.{spans_of, ticks_for_lem, arrival};
ghost use Rattle.model.specs.Intervals.{speed_at, tick_and_interval?};
ghost use Rattle.driving.specs.ArcKept.{ArcKept};
ghost use Rattle.driving.specs.InPlan.{InPlan};
ghost use Rattle.driving.specs.Tries.{AtTry};

use crate::interval::{interval_by_end, interval_end, time_of_day};
use crate::road::Road;
use model::limit::SPANS_PER_METRE;
use model::tick::{Arrival, Tick};

// The spans that an interval covers from a time of day on: none where it ends no later.
pub(crate) fn covered_until(end: u32, time: u32, speed: u8) -> u64
    ensures { result ≡ (end - time) * speed }
{
    (end.saturating_sub(time) as u64) * (speed as u64)
}

// The ticks that cover the spans, rounded up; none where there are no spans or no speed.
pub(crate) fn ticks_for(spans: u64, speed: u8) -> u64
    ensures { result ≡ ticks_for_lem spans speed }
{
    if speed == 0 {
        return 0;
    }
    spans.div_ceil(speed as u64)
}

// A try starts. Nothing is done here: what document 02 wants shown at the start of each try is asked of the numbers that the engine then has.
fn start_try(
    road: &Road,
    departure: u32,
    interval: usize,
    midnight: u32,
    k: usize,
    time: u32,
    left: u64,
)
    requires { ArcKept departure interval road.now.metres road.now.fences.now road.now.speeds.now →
        AtTry road.now.fences.now road.now.speeds.now road.now.metres departure midnight k time left }
{}

// The arrival of a vehicle that leaves at the departure, which lies in the interval. The steps are those of document 004, section 3, in its
// order. A turn of the loop is a line of its list: the first for the interval of departure, each further one for the next interval. The
// paper's number 0 is the interval of departure; k is an interval's number in the plan.
//
//     first turn         second turn               here
//     l                  l − l₀                    left, in spans
//     s                  f₁                        midnight + time
//     f₁                 f₂                        midnight + end
//     v₀                 v₁                        speed, in spans a tick
//     l₀ = v₀(f₁ − s)    l₁ − l₀ = v₁(f₂ − f₁)     covers
//     T(s)               T(s)                      midnight + arrives
//
// At the start of each try what is left is above 0, and is 36 × length less all that was covered since the departure (`AtTry`). Of an arc
// that breaks the rules nothing is said but that the call is safe and ends, and that the interval is one of the plan's.
#[inline(always)]
pub fn drive(road: &Road, departure: u32, interval: usize) -> Option<Arrival>
    ensures result_value { ArcKept departure interval road.now.metres road.now.fences.now road.now.speeds.now → arrived_at result
        ≡ tick_and_interval? road.now.fences.now (arrival (speed_at road.now.fences.now road.now.speeds.now) (spans_of road.now.metres) departure) }
    ensures in_plan { InPlan road.now.fences.now result }
{
    // The intervals that have both a fence and a speed.
    let intervals = road.fences.len().min(road.speeds.len());
    if intervals <= interval {
        return None;
    }
    // At the last tick nothing more is covered: no try starts there.
    if Tick::LAST <= departure {
        return None;
    }
    // "Assuming that f₀ ≤ s ≤ f₁": the interval of departure is given. A tick on a fence is in the interval that starts there, so that s < f₁.
    let mut k = interval;
    let mut time = time_of_day(departure);
    let mut midnight = departure - time;
    let mut left = SPANS_PER_METRE * (road.metres as u64);
    loop {
        start_try(road, departure, interval, midnight, k, time, left);
        // The try within the interval, first that of departure: T(s) = l/v₀ + s, if l/v₀ < f₁ − s.
        // In whole ticks the quotient is rounded up. Where l/v₀ is f₁ − s exactly, the paper's next line gives the same tick f₁, with nothing left
        // over; here that is within. The condition is asked as l ≤ v₀(f₁ − s): at a speed of 0 the interval covers nothing, and the vehicle
        // stands until f₁.
        let speed = road.speeds[k];
        let end = interval_end(road.fences, k);
        let covers = covered_until(end, time, speed);
        if left <= covers {
            let arrives = time + ticks_for(left, speed) as u32;
            break Some(Arrival {
                // By the last tick, where the arc keeps the rules: the sum wraps on no such arc.
                tick: Tick {
                    number: midnight.wrapping_add(arrives),
                },
                interval: interval_by_end(k, intervals, arrives, end),
            });
        }
        // The length left over: l − l₀. Next the paper takes l₁ = l₀ + v₁(f₂ − f₁) off the whole length; here each part comes off what is left.
        left -= covers;
        // The try in the next interval, which is the next turn: T(s) = (l − l₀)/v₁ + f₁, if (l − l₀)/v₁ < f₂ − f₁.
        time = end;
        k += 1;
        if k == intervals {
            // The day repeats: after its last interval comes the first of the next day, whose fences count from its own midnight.
            midnight += Tick::DAY;
            // The last tick ends the list.
            if Tick::LAST <= midnight {
                break None;
            }
            time = 0;
            k = 0;
        }
    }
}
