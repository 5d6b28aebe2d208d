// A round of the labelling.
ghost use Rattle.closed_arcs.specs.Roads.{roads_in};
ghost use Rattle.dijkstra.specs.Code.Offering.{held, SameBuffers};
ghost use Rattle.dijkstra.specs.Code.Rounds.{Settleable, Settles};

use crate::link::Links;
use crate::offer::offer_arcs;
use crate::tables::Tables;
use closed_arcs::roads::Roads;
use model::label::UNREACHED;
use model::limit::MAX_JUNCTIONS;
use tournament::tree::enter;

// Settles a junction, and drives its arcs from its label and the interval that is kept beside it.
pub(crate) fn settle(
    tables: &mut Tables,
    roads: &Roads,
    links: &Links,
    settled: &mut [bool; MAX_JUNCTIONS],
    junction: usize,
)
    requires { Settleable (roads_in roads.now) roads.now.network.now.heads.now links.now.first links.now.next junction (held tables.old) }
    ensures settles { Settles (roads_in roads.now) roads.now.network.now.heads.now links.now.first links.now.next junction
        settled.old settled.new (held tables.old) (held tables.new) }
    ensures same { SameBuffers tables.old tables.new }
{
    settled[junction] = true;
    enter(tables.tree, junction, UNREACHED);
    let tick = tables.labels[junction];
    let interval = tables.intervals[junction];
    offer_arcs(
        tables,
        roads,
        &links.next,
        settled,
        links.first[junction],
        tick,
        interval,
    );
}
