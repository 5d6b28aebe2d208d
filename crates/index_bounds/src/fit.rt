// Whether all that a labelling is lent fits together, so that its indices lie inside.
ghost use Rattle.std.specs.Prelude.{◌≡◌, true, List, ◌↔◌};
ghost use Rattle.model.specs.Lent.{lent_network};
ghost use Rattle.model.specs.declared.closure.Closure.{Closure};
ghost use Rattle.index_bounds.specs.Fitting.{TablesFit, Fits};

use checking::highest::highest;
use model::limit::{MAX_ARCS, MAX_INTERVALS, MAX_JUNCTIONS};
use model::network::Network;
use model::tick::Tick;

fn tables_fit(network: &Network) -> bool
    ensures { (closures : List Closure) → (result ≡ true) ↔ TablesFit (lent_network network.now closures) }
{
    let junctions = network.junctions;
    let intervals = network.fences.len();
    let arcs = network.tails.len();
    if MAX_JUNCTIONS < junctions || MAX_INTERVALS < intervals || MAX_ARCS < arcs {
        return false;
    }
    if network.heads.len() != arcs
        || network.lengths.len() != arcs
        || network.holds.len() != arcs
        || network.speeds.len() != arcs * intervals
    {
        return false;
    }
    (highest(0, network.tails) as usize) < junctions
        && (highest(0, network.heads) as usize) < junctions
}

// The buffers are told by their lengths. Nothing is asked of closures: a record's arc is tested
// before it is an index.
pub fn fits(
    network: &Network,
    source: usize,
    departure: u32,
    label_count: usize,
    predecessor_count: usize,
) -> bool
    ensures { (closures : List Closure) →
        (result ≡ true) ↔ Fits (lent_network network.now closures) source departure label_count predecessor_count }
{
    let junctions = network.junctions;
    if junctions <= source || Tick::LAST < departure {
        return false;
    }
    label_count == junctions && predecessor_count == junctions && tables_fit(network)
}
