// The rules of Labels, which other operations with its input and its buffers ask too.
ghost use Rattle.std.specs.Prelude.{◌≡◌};
ghost use Rattle.refusals.specs.Answers.{outcome_of};
ghost use Rattle.model.specs.Closures.{closures_of};
ghost use Rattle.model.specs.Lent.{lent_network};
ghost use Rattle.labelling.specs.Labels.{labels_answer};

use checking::question::question_check;
use model::network::Network;
use refusals::refusal::Refusal;

#[tactic(auto, unfolding(model::specs::Rules::first_broken), using(crate::proofs::LabelRules::past_question_steps))]
pub fn labels_check(
    network: &Network,
    closures: &[[u32; 4]],
    asker: u32,
    source: u32,
    tick: u32,
    labels: &[u32],
    predecessors: &[u16],
) -> Result<(), Refusal>
    ensures { outcome_of result ≡ labels_answer (lent_network network.now (closures_of closures.now)) asker source tick labels.now predecessors.now }
{
    question_check(network, closures, asker, source, tick)?;
    if labels.len() != network.junctions {
        return Err(Refusal::BufferLength);
    }
    if predecessors.len() != network.junctions {
        return Err(Refusal::BufferLength);
    }
    Ok(())
}
