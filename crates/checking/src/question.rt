// The rules that Labels, Passes and Route ask first: the network's own, its closures' and the asker's, and those on the source and the departure.
ghost use Rattle.std.specs.Prelude.{◌≡◌};
ghost use Rattle.model.specs.Closures.{closures_of};
ghost use Rattle.model.specs.Lent.{lent_network};
ghost use Rattle.refusals.specs.Answers.{outcome_of};
ghost use Rattle.checking.specs.Question.{question_check_lem};

use crate::closure::closed_network_check;
use model::network::Network;
use model::tick::Tick;
use refusals::refusal::Refusal;

#[tactic(auto, unfolding(model::specs::Rules::first_broken), using(crate::proofs::QuestionRules::past_closed_steps))]
pub fn question_check(
    network: &Network,
    closures: &[[u32; 4]],
    asker: u32,
    source: u32,
    tick: u32,
) -> Result<(), Refusal>
    ensures { outcome_of result ≡ question_check_lem (lent_network network.now (closures_of closures.now)) asker source tick }
{
    closed_network_check(network, closures, asker)?;
    if network.junctions <= source as usize {
        return Err(Refusal::Source);
    }
    if Tick::DAY <= tick {
        return Err(Refusal::Departure);
    }
    Ok(())
}
