// The check of sent tables.
ghost use Rattle.std.specs.Prelude.{◌≡◌};
ghost use Rattle.refusals.specs.Answers.{outcome_of};
ghost use Rattle.model.specs.Closures.{closures_of};
ghost use Rattle.model.specs.Lent.{lent_network};
ghost use Rattle.model.specs.Network.{net_of};
ghost use Rattle.model.specs.SentTables.{tables_right?};
ghost use Rattle.dijkstra.specs.Labelable.{Labelable};
ghost use Rattle.certifying.specs.TablesCheck.{tables_answer};

use crate::arc::Sent;
use crate::junction::junctions_stand;
use closed_arcs::mark::mark_closed;
use closed_arcs::roads::Roads;
use closures::stopping::put_stopping;
use labelling::check::labels_check;
use model::closure::MAX_CLOSURES;
use model::limit::{MAX_ARCS, MAX_JUNCTIONS};
use model::network::Network;
use model::tick::Tick;
use refusals::refusal::Refusal;

// The certificate: a look at each junction and at most one drive of each arc, and no labelling.
fn certified<'a>(
    network: &'a Network<'a>,
    closures: &'a [[u32; 4]],
    source: usize,
    departure: u32,
    labels: &'a [u32],
    predecessors: &'a [u16],
) -> bool
    requires { Labelable (lent_network network.now (closures_of closures.now)) source departure labels.now predecessors.now }
    ensures { result ≡ tables_right? (net_of (lent_network network.now (closures_of closures.now))) source departure labels.now predecessors.now }
{
    let mut intervals = [0u8; MAX_JUNCTIONS];
    if !junctions_stand(
        network.fences,
        network.heads,
        source,
        departure,
        labels,
        predecessors,
        &mut intervals,
    ) {
        return false;
    }
    let mut marks = [[0u8; 2]; MAX_ARCS];
    mark_closed(closures, &mut marks);
    let roads = Roads {
        network: &*network,
        closures: &*closures,
        marks: &marks,
    };
    let sent = Sent {
        roads: &roads,
        labels: &*labels,
        predecessors: &*predecessors,
        intervals: &intervals,
    };
    sent.arcs_keep()
}

// Refused as Labels is; else whether the lent tables are right. Nothing is written: both are lent to be read.
pub fn tables_check(
    network: &Network,
    closures: &[[u32; 4]],
    asker: u32,
    source: u32,
    departure: Tick,
    labels: &[u32],
    predecessors: &[u16],
) -> Result<bool, Refusal>
    ensures { outcome_of result ≡
        tables_answer (lent_network network.now (closures_of closures.now)) asker source departure.number labels.now predecessors.now }
{
    let tick = departure.number;
    labels_check(network, closures, asker, source, tick, labels, predecessors)?;
    let mut rows = [[0u32; 4]; MAX_CLOSURES];
    let count = put_stopping(asker, closures, &mut rows);
    Ok(certified(
        network,
        &rows[..count],
        source as usize,
        tick,
        labels,
        predecessors,
    ))
}
