// Arc arrival: when a vehicle that leaves an arc's tail at a tick stands at its head, the hold there waited out.
ghost use Rattle.std.specs.Prelude.{◌≡◌};
ghost use Rattle.arc_arrival.specs.ArcArrival.{arc_arrival_lem, arc_outcome};

use checking::rule::{fences_keep, interval_count_keeps, length_keeps, speeds_keep};
use driving::hold::drive_with_hold;
use driving::interval::contains;
use driving::road::Road;
use model::limit::MAX_HOLD;
use model::tick::{Arrival, Tick};
use refusals::refusal::Refusal;

// The interval is the departure's; the road's hold is any number. The reply is none where the arc cannot be driven.
#[tactic(auto, unfolding(model::specs::Rules::first_broken, crate::specs::ArcArrival::arc_arrival_lem))]
pub fn arc_arrival(road: &Road, departure: Tick, interval: u32) -> Result<Option<Arrival>, Refusal>
    ensures { arc_outcome result ≡
        arc_arrival_lem departure.number interval road.now.metres road.now.hold road.now.fences.now road.now.speeds.now }
{
    let tick = departure.number;
    if !interval_count_keeps(road.fences) {
        return Err(Refusal::IntervalCount);
    }
    if road.speeds.len() != road.fences.len() {
        return Err(Refusal::TableLength);
    }
    if !fences_keep(road.fences) {
        return Err(Refusal::Fence);
    }
    if !length_keeps(road.metres) {
        return Err(Refusal::Length);
    }
    if !speeds_keep(road.speeds) {
        return Err(Refusal::Speed);
    }
    if MAX_HOLD < road.hold {
        return Err(Refusal::Hold);
    }
    if Tick::LAST < tick {
        return Err(Refusal::DepartureAfterLast);
    }
    if !contains(road.fences, interval as usize, tick) {
        return Err(Refusal::DepartureInterval);
    }
    Ok(drive_with_hold(road, tick, interval as usize))
}
