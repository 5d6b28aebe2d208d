// The labelling of documents 000 and 004 (Dijkstra's): settle the nearest junction that is not settled yet, and drive its arcs.
ghost use Rattle.std.specs.Prelude.{◌≡◌, length};
ghost use Rattle.model.specs.Closures.{closures_of};
ghost use Rattle.model.specs.Labels.{labels_of, predecessors_of};
ghost use Rattle.model.specs.Network.{net_of};
ghost use Rattle.model.specs.Lent.{lent_network};
ghost use Rattle.dijkstra.specs.Labelable.{Labelable, LabelsLeft, PredecessorsLeft};
ghost use Rattle.index_bounds.specs.Fitting.{Fits};

use crate::link::{Links, link_arcs};
use crate::settle::settle;
use crate::tables::Tables;
use closed_arcs::mark::mark_closed;
use closed_arcs::roads::Roads;
use driving::interval::interval_of;
use index_bounds::fit::fits;
use model::label::{NO_ARC, UNREACHED};
use model::limit::{MAX_ARCS, MAX_JUNCTIONS};
use model::network::Network;
use tournament::tree::{NODES, enter, junction_of, key_of, least_key};

// Labels tables that lie within the limits.
fn label_all(
    network: &Network,
    closures: &[[u32; 4]],
    source: usize,
    departure: u32,
    labels: &mut [u32],
    predecessors: &mut [u16],
)
    requires { Fits (lent_network network.now (closures_of closures.now)) source departure (length labels.old) (length predecessors.old) }
    ensures labels { Labelable (lent_network network.now (closures_of closures.now)) source departure labels.old predecessors.old →
        labels.new ≡ labels_of (net_of (lent_network network.now (closures_of closures.now))) source departure }
    ensures predecessors { Labelable (lent_network network.now (closures_of closures.now)) source departure labels.old predecessors.old →
        predecessors.new ≡ predecessors_of (net_of (lent_network network.now (closures_of closures.now))) source departure }
{
    labels.fill(UNREACHED);
    predecessors.fill(NO_ARC);
    labels[source] = departure;
    let mut links = Links {
        first: [NO_ARC; MAX_JUNCTIONS],
        next: [NO_ARC; MAX_ARCS],
    };
    link_arcs(network.tails, &mut links);
    let mut marks = [[0u8; 2]; MAX_ARCS];
    mark_closed(closures, &mut marks);
    let roads = Roads {
        network,
        closures,
        marks: &marks,
    };
    let mut settled = [false; MAX_JUNCTIONS];
    let mut tree = [UNREACHED; NODES];
    enter(&mut tree, source, key_of(departure, source));
    let mut tables = Tables {
        labels,
        predecessors,
        intervals: [0u8; MAX_JUNCTIONS],
        tree: &mut tree,
    };
    // The departure's interval is looked up here; the engine hands back those of the arrivals.
    tables.intervals[source] = interval_of(network.fences, departure) as u8;
    loop {
        let key = least_key(tables.tree);
        if key == UNREACHED {
            break;
        }
        settle(&mut tables, &roads, &links, &mut settled, junction_of(key));
    }
}

// Writes the labels and the predecessors of a network that is accepted. It tests once what the indices rest on, and leaves the
// buffers as they are where that does not hold.
pub fn label_from(
    network: &Network,
    closures: &[[u32; 4]],
    source: usize,
    departure: u32,
    labels: &mut [u32],
    predecessors: &mut [u16],
)
    ensures labels { LabelsLeft (lent_network network.now (closures_of closures.now)) source departure labels.old predecessors.old labels.new }
    ensures predecessors { PredecessorsLeft (lent_network network.now (closures_of closures.now)) source departure labels.old predecessors.old predecessors.new }
{
    if !fits(network, source, departure, labels.len(), predecessors.len()) {
        return;
    }
    label_all(network, closures, source, departure, labels, predecessors);
}
