// The rows of a sheet: the labels of one departure after another.
ghost use Rattle.std.specs.Prelude.{◌≡◌};
ghost use Rattle.model.specs.Closures.{closures_of};
ghost use Rattle.model.specs.Lent.{lent_network};
ghost use Rattle.sheeting.specs.Rows.{rows_of};
ghost use Rattle.sheeting.specs.Code.Writing.{RowsAsked};

use dijkstra::label::label_from;
use model::label::NO_ARC;
use model::limit::MAX_JUNCTIONS;
use model::network::Network;

// The predecessors are written too, and not handed out.
pub(crate) fn write_rows(
    network: &Network,
    closures: &[[u32; 4]],
    source: usize,
    departures: &[u32],
    labels: &mut [u32],
)
    requires { RowsAsked (lent_network network.now (closures_of closures.now)) source departures.now labels.old }
    ensures { labels.new ≡ rows_of (lent_network network.now (closures_of closures.now)) source departures.now }
{
    let junctions = network.junctions;
    let mut predecessors = [NO_ARC; MAX_JUNCTIONS];
    for (k, departure) in departures.iter().enumerate() {
        let from = k * junctions;
        let to = from + junctions;
        label_from(
            network,
            closures,
            source,
            *departure,
            &mut labels[from..to],
            &mut predecessors[..junctions],
        );
    }
}
