// Network check: whether the tables describe a network.
ghost use Rattle.std.specs.Prelude.{◌≡◌, []};
ghost use Rattle.model.specs.NetworkRules.{network_check_lem};
ghost use Rattle.model.specs.Lent.{lent_network};
ghost use Rattle.refusals.specs.Answers.{outcome_of};

use crate::check::{ends_keep, holds_keep, junction_count_keeps, tables_agree};
use crate::rule::{fences_keep, interval_count_keeps, lengths_keep, speeds_keep};
use model::limit::MAX_ARCS;
use model::network::Network;
use refusals::refusal::Refusal;

#[tactic(auto, unfolding(model::specs::Rules::first_broken, model::specs::NetworkRules::network_check_lem))]
pub fn network_check(network: &Network) -> Result<(), Refusal>
    ensures { outcome_of result ≡ network_check_lem (lent_network network.now []) }
{
    if !junction_count_keeps(network.junctions) {
        return Err(Refusal::JunctionCount);
    }
    if !interval_count_keeps(network.fences) {
        return Err(Refusal::IntervalCount);
    }
    if MAX_ARCS < network.tails.len() {
        return Err(Refusal::ArcCount);
    }
    if !tables_agree(network) {
        return Err(Refusal::TableLength);
    }
    if !fences_keep(network.fences) {
        return Err(Refusal::Fence);
    }
    // The count is within its limit here, so that 32 bits hold it.
    if !ends_keep(network.junctions as u32, network.tails, network.heads) {
        return Err(Refusal::ArcEnds);
    }
    if !lengths_keep(network.lengths) {
        return Err(Refusal::Length);
    }
    if !speeds_keep(network.speeds) {
        return Err(Refusal::Speed);
    }
    if !holds_keep(network.holds) {
        return Err(Refusal::Hold);
    }
    Ok(())
}
