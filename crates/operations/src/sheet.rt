// Sheet, as a caller asks it: with a slice of closures.
ghost use Rattle.std.specs.Prelude.{◌≡◌};
ghost use Rattle.model.specs.Lent.{lent_network};
ghost use Rattle.refusals.specs.Answers.{outcome_of};
ghost use Rattle.sheeting.specs.Sheet.{sheet_answer, sheet_labels_after, sheet_figures_after};

use closures::rows::{ROWS, read_closures};
use model::closure::Closure;
use model::network::Network;
use refusals::refusal::Refusal;

pub fn sheet(
    network: &Network,
    closures: &[Closure],
    asker: u32,
    source: u32,
    departures: &[u32],
    labels: &mut [u32],
    figures: &mut [u32],
) -> Result<(), Refusal>
    ensures answer { outcome_of result ≡ sheet_answer (lent_network network.now closures.now) asker source departures.now labels.old figures.old }
    ensures labels { labels.new ≡ sheet_labels_after (lent_network network.now closures.now) asker source departures.now labels.old figures.old }
    ensures figures { figures.new ≡ sheet_figures_after (lent_network network.now closures.now) asker source departures.now labels.old figures.old }
{
    let mut table = [[0u32; 4]; ROWS];
    let count = read_closures(closures, &mut table);
    sheeting::sheet::sheet(
        network,
        &table[..count],
        asker,
        source,
        departures,
        labels,
        figures,
    )
}
