// Labels into buffers of one's own, which have room for every network: the first entries of each are lent, one for each junction.
ghost use Rattle.std.specs.Prelude.{◌≡◌};
ghost use Rattle.refusals.specs.Answers.{outcome_of};
ghost use Rattle.model.specs.Closures.{closures_of};
ghost use Rattle.model.specs.Lent.{lent_network};
ghost use Rattle.labelling.specs.Within.{answer_within, labels_within_lem, predecessors_within};

use model::network::Network;
use model::tick::Tick;
use refusals::refusal::Refusal;

// A buffer that is shorter than the junction count is lent whole, and refused.
pub fn labels_within(
    network: &Network,
    closures: &[[u32; 4]],
    asker: u32,
    source: u32,
    departure: Tick,
    labels: &mut [u32],
    predecessors: &mut [u16],
) -> Result<(), Refusal>
    ensures answer { outcome_of result ≡
        answer_within (lent_network network.now (closures_of closures.now)) asker source departure.number labels.old predecessors.old }
    ensures labels { labels.new ≡
        labels_within_lem (lent_network network.now (closures_of closures.now)) asker source departure.number labels.old predecessors.old }
    ensures predecessors { predecessors.new ≡
        predecessors_within (lent_network network.now (closures_of closures.now)) asker source departure.number labels.old predecessors.old }
{
    let count = network.junctions;
    let labelled = count.min(labels.len());
    let preceded = count.min(predecessors.len());
    crate::labels::labels(
        network,
        closures,
        asker,
        source,
        departure,
        &mut labels[..labelled],
        &mut predecessors[..preceded],
    )
}
