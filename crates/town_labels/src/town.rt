// Load, and Labels in what it loaded.
ghost use Rattle.std.specs.Prelude.{◌≡◌, []};
ghost use Rattle.model.specs.Parties.{brigade};
ghost use Rattle.townfile.specs.Answers.{reading_of};
ghost use Rattle.model.specs.Lent.{lent_network};
ghost use Rattle.refusals.specs.Answers.{outcome_of};
ghost use Rattle.labelling.specs.Within.{answer_within, labels_within_lem, predecessors_within};
ghost use Rattle.town_labels.specs.Labelling.{town_labelling, junction_count, labels_after, predecessors_after};

use labelling::own::labels_within;
use loading::town::Town;
use model::limit::MAX_JUNCTIONS;
use model::network::Network;
use model::party::BRIGADE;
use model::tick::Tick;
use refusals::refusal::Refusal;
use townfile::fault::Fault;

// Labels in a town's network.
fn labels_in_town(
    network: &Network<'_>,
    source: u32,
    departure: u32,
    labels: &mut [u32],
    predecessors: &mut [u16],
) -> Result<(), Refusal>
    ensures answer { outcome_of result ≡ answer_within (lent_network network.now []) brigade source departure labels.old predecessors.old }
    ensures labels { labels.new ≡ labels_within_lem (lent_network network.now []) brigade source departure labels.old predecessors.old }
    ensures predecessors { predecessors.new ≡ predecessors_within (lent_network network.now []) brigade source departure labels.old predecessors.old }
{
    let no_closures = [[0u32; 4]; 0];
    labels_within(
        network,
        &no_closures,
        BRIGADE,
        source,
        Tick { number: departure },
        labels,
        predecessors,
    )
}

// So many entries of each buffer are the town's.
pub fn town_labels(
    text: &[u8],
    source: u32,
    departure: u32,
    labels: &mut [u32; MAX_JUNCTIONS],
    predecessors: &mut [u16; MAX_JUNCTIONS],
) -> Result<u32, Fault>
    ensures answer { reading_of result ≡ junction_count (town_labelling text.now source departure) }
    ensures labels { labels.new ≡ labels_after (town_labelling text.now source departure) labels.old }
    ensures predecessors { predecessors.new ≡ predecessors_after (town_labelling text.now source departure) predecessors.old }
{
    let mut town = Town::empty();
    let counts = town.load(text)?;
    match labels_in_town(
        &town.network(counts),
        source,
        departure,
        labels,
        predecessors,
    ) {
        Ok(()) => Ok(counts.junctions),
        Err(refusal) => Err(Fault { refusal, line: 0 }),
    }
}
