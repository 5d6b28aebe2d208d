// Labels: the earliest arrival at every junction, and the arc by which it is reached.
ghost use Rattle.std.specs.Prelude.{◌≡◌};
ghost use Rattle.refusals.specs.Answers.{outcome_of};
ghost use Rattle.model.specs.Closures.{closures_of};
ghost use Rattle.model.specs.Lent.{lent_network};
ghost use Rattle.labelling.specs.Labels.{labels_answer, labels_after, predecessors_after};

use crate::check::labels_check;
use closures::stopping::put_stopping;
use dijkstra::label::label_from;
use model::closure::MAX_CLOSURES;
use model::network::Network;
use model::tick::Tick;
use refusals::refusal::Refusal;

pub fn labels(
    network: &Network,
    closures: &[[u32; 4]],
    asker: u32,
    source: u32,
    departure: Tick,
    labels: &mut [u32],
    predecessors: &mut [u16],
) -> Result<(), Refusal>
    ensures answer { outcome_of result ≡
        labels_answer (lent_network network.now (closures_of closures.now)) asker source departure.number labels.old predecessors.old }
    ensures labels { labels.new ≡
        labels_after (lent_network network.now (closures_of closures.now)) asker source departure.number labels.old predecessors.old }
    ensures predecessors { predecessors.new ≡
        predecessors_after (lent_network network.now (closures_of closures.now)) asker source departure.number labels.old predecessors.old }
{
    let tick = departure.number;
    labels_check(network, closures, asker, source, tick, labels, predecessors)?;
    let mut rows = [[0u32; 4]; MAX_CLOSURES];
    let count = put_stopping(asker, closures, &mut rows);
    label_from(
        network,
        &rows[..count],
        source as usize,
        tick,
        labels,
        predecessors,
    );
    Ok(())
}
