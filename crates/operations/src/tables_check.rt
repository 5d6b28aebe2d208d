// The check of sent tables, as a caller asks it: with a slice of closures.
ghost use Rattle.std.specs.Prelude.{◌≡◌};
ghost use Rattle.model.specs.Lent.{lent_network};
ghost use Rattle.refusals.specs.Answers.{outcome_of};
ghost use Rattle.certifying.specs.TablesCheck.{tables_answer};

use closures::rows::{ROWS, read_closures};
use model::closure::Closure;
use model::network::Network;
use model::tick::Tick;
use refusals::refusal::Refusal;

pub fn tables_check(
    network: &Network,
    closures: &[Closure],
    asker: u32,
    source: u32,
    departure: Tick,
    labels: &[u32],
    predecessors: &[u16],
) -> Result<bool, Refusal>
    ensures { outcome_of result ≡ tables_answer (lent_network network.now closures.now) asker source departure.number labels.now predecessors.now }
{
    let mut table = [[0u32; 4]; ROWS];
    let count = read_closures(closures, &mut table);
    certifying::tables::tables_check(
        network,
        &table[..count],
        asker,
        source,
        departure,
        labels,
        predecessors,
    )
}
