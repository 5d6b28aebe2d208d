// Passes, over lent tables with a slice of closures.
ghost use Rattle.std.specs.Prelude.{◌≡◌};
ghost use Rattle.model.specs.Network.{network};
ghost use Rattle.labelling.specs.Labels.{labels_after, predecessors_after};
ghost use Rattle.passing.specs.Passes.{passes_answer};
ghost use Rattle.exports.specs.Codes.{count_code};

use model::closure::Closure;
use model::network::Network;
use model::tick::Tick;
use operations::passes::passes;

// The number of passes, or the refusal's code.
#[unsafe(no_mangle)]
pub extern "C" fn exports_passes(
    junctions: u32,
    fences: &[u32],
    tails: &[u16],
    heads: &[u16],
    lengths: &[u32],
    holds: &[u16],
    speeds: &[u8],
    closures: &[Closure],
    asker: u32,
    source: u32,
    departure: u32,
    labels: &mut [u32],
    predecessors: &mut [u16],
) -> u32
    ensures answer { result ≡
        count_code (passes_answer (network junctions fences.now tails.now heads.now lengths.now holds.now speeds.now closures.now) asker source departure labels.old predecessors.old) }
    ensures labels { labels.new ≡ labels_after (network junctions fences.now tails.now heads.now lengths.now holds.now speeds.now closures.now) asker source departure labels.old predecessors.old }
    ensures predecessors { predecessors.new ≡
        predecessors_after (network junctions fences.now tails.now heads.now lengths.now holds.now speeds.now closures.now) asker source departure labels.old predecessors.old }
{
    let lent = Network {
        junctions: junctions as usize,
        fences,
        tails,
        heads,
        lengths,
        holds,
        speeds,
    };
    match passes(
        &lent,
        closures,
        asker,
        source,
        Tick { number: departure },
        labels,
        predecessors,
    ) {
        Ok(number) => number,
        Err(refusal) => refusal.code(),
    }
}
