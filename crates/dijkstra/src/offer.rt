// The offers of a settled junction's arcs: each arc's arrival may lower its head's label.
ghost use Rattle.closed_arcs.specs.Arcs.{HasArc};
ghost use Rattle.closed_arcs.specs.Roads.{roads_in};
ghost use Rattle.dijkstra.specs.Code.Offering.{held, SameBuffers, Offerable, Leaves, ArcOffered, Drivable, AllOffered};

use crate::tables::Tables;
use closed_arcs::roads::Roads;
use model::label::NO_ARC;
use model::limit::{MAX_ARCS, MAX_JUNCTIONS};
use model::tick::Tick;
use tournament::tree::{LEAVES, enter, key_of};

// Offers an arc's arrival to its head: an earlier one lowers its label, and of the arcs that arrive at the label the lowest-numbered
// is the predecessor. A head whose label is lowered gets that label's interval and its key.
fn offer(tables: &mut Tables, a: u16, head: usize, arrival: u32, interval: u8)
    requires { Offerable head (held tables.old) }
    ensures leaves { Leaves a head arrival interval (held tables.old) (held tables.new) }
    ensures same { SameBuffers tables.old tables.new }
{
    let label = tables.labels[head];
    if arrival < label {
        tables.labels[head] = arrival;
        tables.predecessors[head] = a;
        tables.intervals[head] = interval;
        enter(tables.tree, head, key_of(arrival, head));
        return;
    }
    if arrival == label {
        if a < tables.predecessors[head] {
            tables.predecessors[head] = a;
        }
    }
}

// Drives an arc from a tick on, and offers its arrival.
fn offer_arc(tables: &mut Tables, roads: &Roads, a: u16, head: usize, tick: u32, interval: u8)
    requires has_arc { HasArc (roads_in roads.now) a }
    requires offerable { Offerable head (held tables.old) }
    ensures offered { ArcOffered (roads_in roads.now) a head tick interval (held tables.old) (held tables.new) }
    ensures same { SameBuffers tables.old tables.new }
{
    let leaves_in = interval as usize;
    if let Some(arrival) = roads.drive(a as usize, tick, leaves_in) {
        // A byte holds every interval of a plan.
        let noted = arrival.interval as u8;
        offer(tables, a, head, arrival.tick.number, noted);
    }
}

// Drives a settled junction's arcs, from its first on along the links, to the heads that are not settled.
pub(crate) fn offer_arcs(
    tables: &mut Tables,
    roads: &Roads,
    next: &[u16; MAX_ARCS],
    settled: &[bool; MAX_JUNCTIONS],
    first: u16,
    tick: u32,
    interval: u8,
)
    requires { Drivable (roads_in roads.now) roads.now.network.now.heads.now next.now first (held tables.old) }
    ensures offered { AllOffered (roads_in roads.now) roads.now.network.now.heads.now next.now settled.now tick interval first (held tables.old) (held tables.new) }
    ensures same { SameBuffers tables.old tables.new }
{
    // In no interval of the plan, and from the last tick on, no arc is driven: asked once for all of them.
    if roads.network.fences.len() <= interval as usize {
        return;
    }
    if Tick::LAST <= tick {
        return;
    }
    let mut a = first;
    while a != NO_ARC {
        let arc = a as usize;
        // The remainder is the head: it tells the compiler that finding the head's leaf needs no mask.
        let head = (roads.network.heads[arc] as usize) % LEAVES;
        // A settled junction's label is no later than the tick, and driving takes time: an arc to it arrives later.
        if !settled[head] {
            offer_arc(tables, roads, a, head, tick, interval);
        }
        a = next[arc];
    }
}
