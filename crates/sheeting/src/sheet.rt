// Sheet: the labels and the figures of a list of departures.
ghost use Rattle.std.specs.Prelude.{◌≡◌};
ghost use Rattle.refusals.specs.Answers.{outcome_of};
ghost use Rattle.model.specs.Closures.{closures_of};
ghost use Rattle.model.specs.Lent.{lent_network};
ghost use Rattle.model.specs.Rules.{every};
ghost use Rattle.sheeting.specs.Sheet.{in_day, shift_check_lem, sheet_answer, sheet_labels_after, sheet_figures_after};

use crate::figures::write_figures;
use crate::rows::write_rows;
use checking::closure::closed_network_check;
use closures::stopping::put_stopping;
use model::closure::MAX_CLOSURES;
use model::network::Network;
use model::tick::Tick;
use refusals::refusal::Refusal;

pub const MAX_DEPARTURES: usize = 96;

// As many numbers stand in the figures for each junction.
pub const FIGURES: usize = 4;

// All departures lie in the day.
fn departures_keep(departures: &[u32]) -> bool
    ensures { result ≡ every in_day departures.now }
{
    departures.iter().all(|departure| *departure < Tick::DAY)
}

// The rules on the network with its closures, the asker, the source and the list.
#[tactic(auto, unfolding(model::specs::Rules::first_broken), using(crate::proofs::SheetRules::past_closed, crate::proofs::SheetRules::network_refuses))]
fn shift_check(
    network: &Network,
    closures: &[[u32; 4]],
    asker: u32,
    source: u32,
    departures: &[u32],
) -> Result<(), Refusal>
    ensures { outcome_of result ≡ shift_check_lem (lent_network network.now (closures_of closures.now)) asker source departures.now }
{
    closed_network_check(network, closures, asker)?;
    if network.junctions <= source as usize {
        return Err(Refusal::Source);
    }
    if departures.is_empty() || MAX_DEPARTURES < departures.len() {
        return Err(Refusal::DepartureCount);
    }
    if !departures_keep(departures) {
        return Err(Refusal::Departure);
    }
    Ok(())
}

#[tactic(auto, unfolding(model::specs::Rules::first_broken), using(crate::proofs::SheetRules::past_check, crate::proofs::SheetRules::check_refuses))]
pub fn sheet(
    network: &Network,
    closures: &[[u32; 4]],
    asker: u32,
    source: u32,
    departures: &[u32],
    labels: &mut [u32],
    figures: &mut [u32],
) -> Result<(), Refusal>
    ensures answer { outcome_of result ≡
        sheet_answer (lent_network network.now (closures_of closures.now)) asker source departures.now labels.old figures.old }
    ensures labels { labels.new ≡
        sheet_labels_after (lent_network network.now (closures_of closures.now)) asker source departures.now labels.old figures.old }
    ensures figures { figures.new ≡
        sheet_figures_after (lent_network network.now (closures_of closures.now)) asker source departures.now labels.old figures.old }
{
    shift_check(network, closures, asker, source, departures)?;
    let junctions = network.junctions;
    if labels.len() != departures.len() * junctions || figures.len() != FIGURES * junctions {
        return Err(Refusal::SheetLength);
    }
    let mut rows = [[0u32; 4]; MAX_CLOSURES];
    let count = put_stopping(asker, closures, &mut rows);
    write_rows(network, &rows[..count], source as usize, departures, labels);
    write_figures(labels, departures, junctions, figures);
    Ok(())
}
