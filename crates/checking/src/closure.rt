// The rules on closures and on who asks, which every operation that takes them asks after the network's own.
ghost use Rattle.std.specs.Prelude.{◌≡◌};
ghost use Rattle.model.specs.Closures.{closure_keeps_lem, closure_of, closures_of, party_keeps};
ghost use Rattle.model.specs.Lent.{lent_network};
ghost use Rattle.model.specs.Parties.{asker_keeps};
ghost use Rattle.model.specs.Rules.{every};
ghost use Rattle.refusals.specs.Answers.{outcome_of};
ghost use Rattle.checking.specs.ClosedNetwork.{closed_network_check_lem};

use crate::network::network_check;
use model::closure::MAX_CLOSURES;
use model::network::Network;
use model::party::{BRIGADE, DEPOT};
use model::tick::Tick;
use refusals::refusal::Refusal;

// A record's arc is known, and its ticks are some and end by the last.
fn closure_keeps(arcs: usize, row: [u32; 4]) -> bool
    ensures { result ≡ closure_keeps_lem arcs (closure_of row) }
{
    let [arc, first, end, _party] = row;
    ((arc as usize) < arcs) & (first < end) & (end <= Tick::LAST)
}

fn closures_keep(arcs: usize, closures: &[[u32; 4]]) -> bool
    ensures { result ≡ every (λ row. closure_keeps_lem arcs (closure_of row)) closures.now }
{
    closures.iter().all(|row| closure_keeps(arcs, *row))
}

// No record's party is above the depot's, the highest.
fn parties_keep(closures: &[[u32; 4]]) -> bool
    ensures { result ≡ every (λ row. party_keeps (closure_of row)) closures.now }
{
    closures.iter().all(|row| row[3] <= DEPOT)
}

// 0 is the party of a closure, and no asker.
fn known_asker(asker: u32) -> bool
    ensures { result ≡ asker_keeps asker }
{
    asker == BRIGADE || asker == DEPOT
}

// Network check, and then the rules on the closures, whoever asks, and on the asker.
#[tactic(auto, unfolding(model::specs::Rules::first_broken), using(crate::proofs::QuestionRules::past_network_steps))]
pub fn closed_network_check(
    network: &Network,
    closures: &[[u32; 4]],
    asker: u32,
) -> Result<(), Refusal>
    ensures { outcome_of result ≡ closed_network_check_lem (lent_network network.now (closures_of closures.now)) asker }
{
    network_check(network)?;
    if MAX_CLOSURES < closures.len() {
        return Err(Refusal::ClosureCount);
    }
    if !closures_keep(network.tails.len(), closures) {
        return Err(Refusal::Closure);
    }
    if !parties_keep(closures) {
        return Err(Refusal::ClosureParty);
    }
    if !known_asker(asker) {
        return Err(Refusal::Asker);
    }
    Ok(())
}
