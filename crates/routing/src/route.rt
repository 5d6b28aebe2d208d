// Route: the arcs by which the destination is reached at its label.
ghost use Rattle.std.specs.Prelude.{◌≡◌, ◌≤◌, length, reverse};
ghost use Rattle.model.specs.Closures.{closures_of};
ghost use Rattle.model.specs.Lent.{lent_network};
ghost use Rattle.model.specs.Limits.{max_junctions};
ghost use Rattle.model.specs.Rules.{written};
ghost use Rattle.routing.specs.Code.Following.{way_from, HasStep, StepIs, LeadsBack, Reached, Follows};
ghost use Rattle.routing.specs.Route.{route_outcome, arrival_of, route_answer, route_arrival, arcs_after};

use labelling::own::labels_within;
use model::label::{NO_ARC, UNREACHED};
use model::limit::MAX_JUNCTIONS;
use model::network::Network;
use model::tick::Tick;
use refusals::refusal::Refusal;

// The number of arcs, and the destination's label.
#[derive(Clone, Copy, Debug, PartialEq, Eq)]
pub struct Routed {
    pub count: u32,
    pub arrival: u32,
}

// The predecessors, each of which leads to its tail, and the source, where they end.
#[derive(Clone, Copy)]
struct WayBack<'a> {
    tails: &'a [u16],
    predecessors: &'a [u16],
    source: usize,
}

impl WayBack<'_> {
    // A junction's predecessor, and the junction that it comes from.
    fn step_back(&self, junction: usize) -> (u16, usize)
        requires { HasStep self.now.tails.now self.now.predecessors.now junction }
        ensures { StepIs self.now.tails.now self.now.predecessors.now junction result }
    {
        let arc = self.predecessors[junction];
        (arc, self.tails[arc as usize] as usize)
    }

    // How many arcs lead from the destination back to the source: that shows only there.
    fn count_arcs(&self, destination: usize) -> usize
        requires { LeadsBack self.now destination }
        ensures { result ≡ length (way_from self.now destination) }
    {
        let mut junction = destination;
        let mut count = 0;
        while junction != self.source {
            (_, junction) = self.step_back(junction);
            count += 1;
        }
        count
    }

    // Writes them in driving order at the list's start, the last arc first.
    fn write_arcs(&self, destination: usize, count: usize, arcs: &mut [u16])
        requires leads { LeadsBack self.now destination }
        requires count_value { count ≡ length (way_from self.now destination) }
        requires count_in_bounds { count ≤ length arcs.old }
        ensures { arcs.new ≡ written (reverse (way_from self.now destination)) arcs.old }
    {
        let mut junction = destination;
        // Written by index: of what an adapter of `iter_mut`, as `rev`, writes a proof knows nothing.
        for k in (0..count).rev() {
            (arcs[k], junction) = self.step_back(junction);
        }
    }

    // Looks the destination up in the labels, of which there is one for each junction, and follows the arcs back to the source.
    fn follow(
        &self,
        labels: &[u32],
        destination: usize,
        arcs: &mut [u16],
    ) -> Result<Routed, Refusal>
        requires predecessors_len_bound { length self.now.predecessors.now ≤ max_junctions }
        requires leads { Reached labels.now destination → LeadsBack self.now destination }
        ensures { Follows labels.now destination (way_from self.now destination) arcs.old result arcs.new }
    {
        let Some(&arrival) = labels.get(destination) else {
            return Err(Refusal::Destination);
        };
        if arrival == UNREACHED {
            return Err(Refusal::Unreached);
        }
        let count = self.count_arcs(destination);
        if arcs.len() < count {
            return Err(Refusal::ArcListLength);
        }
        self.write_arcs(destination, count, arcs);
        Ok(Routed {
            count: count as u32,
            arrival,
        })
    }
}

// The labels are reckoned once, into tables of the function's own. These have room for as many junctions as a network may have.
pub fn route(
    network: &Network,
    closures: &[[u32; 4]],
    asker: u32,
    source: u32,
    departure: Tick,
    destination: u32,
    arcs: &mut [u16],
) -> Result<Routed, Refusal>
    ensures answer { route_outcome result ≡
        route_answer (lent_network network.now (closures_of closures.now)) asker source departure.number destination arcs.old }
    ensures arrival { arrival_of result ≡
        route_arrival (lent_network network.now (closures_of closures.now)) asker source departure.number destination arcs.old }
    ensures arcs { arcs.new ≡
        arcs_after (lent_network network.now (closures_of closures.now)) asker source departure.number destination arcs.old }
{
    let mut earliest = [UNREACHED; MAX_JUNCTIONS];
    let mut predecessors = [NO_ARC; MAX_JUNCTIONS];
    labels_within(
        network,
        closures,
        asker,
        source,
        departure,
        &mut earliest,
        &mut predecessors,
    )?;
    let junctions = network.junctions;
    let back = WayBack {
        tails: network.tails,
        predecessors: &predecessors[..junctions],
        source: source as usize,
    };
    back.follow(&earliest[..junctions], destination as usize, arcs)
}
