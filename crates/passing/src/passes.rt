// Passes: the reckoning of Labels by repeated passes, and how many there were.
ghost use Rattle.std.specs.Prelude.{◌≡◌};
ghost use Rattle.refusals.specs.Answers.{outcome_of};
ghost use Rattle.model.specs.Closures.{closures_of};
ghost use Rattle.model.specs.Labels.{labels_of, predecessors_of};
ghost use Rattle.model.specs.Lent.{lent_network};
ghost use Rattle.model.specs.Network.{net_of};
ghost use Rattle.model.specs.Passes.{passes_of};
ghost use Rattle.dijkstra.specs.Labelable.{Labelable};
ghost use Rattle.labelling.specs.Labels.{labels_after, predecessors_after};
ghost use Rattle.passing.specs.Passes.{passes_answer};

use crate::tables::Tables;
use closed_arcs::mark::mark_closed;
use closed_arcs::roads::Roads;
use closures::stopping::put_stopping;
use driving::interval::interval_of;
use labelling::check::labels_check;
use model::closure::MAX_CLOSURES;
use model::label::UNREACHED;
use model::limit::{MAX_ARCS, MAX_JUNCTIONS};
use model::network::Network;
use model::tick::Tick;
use refusals::refusal::Refusal;

// Passes until one changes no label, and then the predecessors. The number of that pass.
fn repeat_passes<'a>(
    network: &'a Network<'a>,
    closures: &'a [[u32; 4]],
    source: usize,
    departure: u32,
    labels: &mut [u32],
    predecessors: &mut [u16],
) -> u32
    requires { Labelable (lent_network network.now (closures_of closures.now)) source departure labels.old predecessors.old }
    ensures number { result ≡ passes_of (net_of (lent_network network.now (closures_of closures.now))) source departure }
    ensures labels { labels.new ≡ labels_of (net_of (lent_network network.now (closures_of closures.now))) source departure }
    ensures predecessors { predecessors.new ≡ predecessors_of (net_of (lent_network network.now (closures_of closures.now))) source departure }
{
    let mut marks = [[0u8; 2]; MAX_ARCS];
    mark_closed(closures, &mut marks);
    let roads = Roads {
        network: &*network,
        closures: &*closures,
        marks: &marks,
    };
    labels.fill(UNREACHED);
    labels[source] = departure;
    let mut intervals = [0u8; MAX_JUNCTIONS];
    intervals[source] = interval_of(network.fences, departure) as u8;
    // Any arrivals will do: the first pass writes each.
    let mut tables = Tables {
        labels,
        intervals,
        arrivals: [UNREACHED; MAX_ARCS],
        latest: [0; MAX_JUNCTIONS],
    };
    let mut made = 0;
    while tables.make_pass(&roads, made) {
        made += 1;
    }
    tables.put_predecessors(network.heads, predecessors);
    made + 1
}

pub fn passes(
    network: &Network,
    closures: &[[u32; 4]],
    asker: u32,
    source: u32,
    departure: Tick,
    labels: &mut [u32],
    predecessors: &mut [u16],
) -> Result<u32, Refusal>
    ensures answer { outcome_of result ≡
        passes_answer (lent_network network.now (closures_of closures.now)) asker source departure.number labels.old predecessors.old }
    ensures labels { labels.new ≡
        labels_after (lent_network network.now (closures_of closures.now)) asker source departure.number labels.old predecessors.old }
    ensures predecessors { predecessors.new ≡
        predecessors_after (lent_network network.now (closures_of closures.now)) asker source departure.number labels.old predecessors.old }
{
    let tick = departure.number;
    labels_check(network, closures, asker, source, tick, labels, predecessors)?;
    let mut rows = [[0u32; 4]; MAX_CLOSURES];
    let count = put_stopping(asker, closures, &mut rows);
    Ok(repeat_passes(
        network,
        &rows[..count],
        source as usize,
        tick,
        labels,
        predecessors,
    ))
}
