// Passes, as a caller asks it: with a slice of closures.
ghost use Rattle.std.specs.Prelude.{◌≡◌};
ghost use Rattle.model.specs.Lent.{lent_network};
ghost use Rattle.refusals.specs.Answers.{outcome_of};
ghost use Rattle.labelling.specs.Labels.{labels_after, predecessors_after};
ghost use Rattle.passing.specs.Passes.{passes_answer};

use closures::rows::{ROWS, read_closures};
use model::closure::Closure;
use model::network::Network;
use model::tick::Tick;
use refusals::refusal::Refusal;

pub fn passes(
    network: &Network,
    closures: &[Closure],
    asker: u32,
    source: u32,
    departure: Tick,
    labels: &mut [u32],
    predecessors: &mut [u16],
) -> Result<u32, Refusal>
    ensures answer { outcome_of result ≡ passes_answer (lent_network network.now closures.now) asker source departure.number labels.old predecessors.old }
    ensures labels { labels.new ≡ labels_after (lent_network network.now closures.now) asker source departure.number labels.old predecessors.old }
    ensures predecessors { predecessors.new ≡ predecessors_after (lent_network network.now closures.now) asker source departure.number labels.old predecessors.old }
{
    let mut table = [[0u32; 4]; ROWS];
    let count = read_closures(closures, &mut table);
    passing::passes::passes(
        network,
        &table[..count],
        asker,
        source,
        departure,
        labels,
        predecessors,
    )
}
