// The roads of a network with its closures, and driving an arc of them.
ghost use Rattle.model.specs.Ticks.{arrived_at};
ghost use Rattle.model.specs.Closures.{closures_of};
ghost use Rattle.model.specs.Network.{roads_of};
ghost use Rattle.model.specs.Lent.{lent_network};
ghost use Rattle.driving.specs.InPlan.{InPlan};
ghost use Rattle.closed_arcs.specs.Arcs.{HasArc, ArrivesOn};
ghost use Rattle.closed_arcs.specs.Marks.{Marked};

use driving::closed::{Works, drive_closed_with_hold};
use driving::hold::drive_with_hold;
use driving::road::Road;
use model::limit::MAX_ARCS;
use model::network::Network;
use model::tick::Arrival;

#[derive(Clone, Copy)]
pub struct Roads<'a> {
    pub network: &'a Network<'a>,
    pub closures: &'a [[u32; 4]],
    // Those of these closures, as `mark_closed` makes them.
    pub marks: &'a [[u8; 2]; MAX_ARCS],
    ghost marked: { Marked (closures_of closures.now) marks.now },
}

impl Roads<'_> {
    // Drives an arc from a tick on, with the part of the list at hand in which its records stand, and by its plan alone where there are none. Three engines
    // call it: a call of its own would cost each of them a further one for each arc.
    #[inline(always)]
    pub fn drive(&self, arc: usize, tick: u32, interval: usize) -> Option<Arrival>
        requires { HasArc (roads_of (lent_network self.now.network.now (closures_of self.now.closures.now))) arc }
        ensures arrives_on { ArrivesOn (roads_of (lent_network self.now.network.now (closures_of self.now.closures.now))) arc tick interval (arrived_at result) }
        ensures in_plan { InPlan self.now.network.now.fences.now result }
    {
        let network = self.network;
        let from = arc * network.fences.len();
        let to = from + network.fences.len();
        let road = Road {
            fences: network.fences,
            speeds: &network.speeds[from..to],
            metres: network.lengths[arc],
            hold: network.holds[arc] as u32,
        };
        // Asked first, so that nothing of the closures is left where a caller never has any.
        if !self.closures.is_empty() {
            let [start, end] = self.marks[arc];
            if end != 0 {
                let works = Works {
                    arc: arc as u32,
                    closures: &self.closures[start as usize..end as usize],
                };
                return drive_closed_with_hold(&road, &works, tick, interval);
            }
        }
        drive_with_hold(&road, tick, interval)
    }
}
