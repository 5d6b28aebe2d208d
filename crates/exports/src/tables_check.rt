// The check of sent tables, over lent tables with a slice of closures.
ghost use Rattle.std.specs.Prelude.{◌≡◌};
ghost use Rattle.model.specs.Network.{network};
ghost use Rattle.certifying.specs.TablesCheck.{tables_answer};
ghost use Rattle.exports.specs.Codes.{yes_code};

use model::closure::Closure;
use model::network::Network;
use model::tick::Tick;
use operations::tables_check::tables_check;

// 1 for yes, 0 for no, or the refusal's code.
#[unsafe(no_mangle)]
pub extern "C" fn exports_tables_check(
    junctions: u32,
    fences: &[u32],
    tails: &[u16],
    heads: &[u16],
    lengths: &[u32],
    holds: &[u16],
    speeds: &[u8],
    closures: &[Closure],
    asker: u32,
    source: u32,
    departure: u32,
    labels: &[u32],
    predecessors: &[u16],
) -> u32
    ensures { result ≡ yes_code (tables_answer (network junctions fences.now tails.now heads.now lengths.now holds.now speeds.now closures.now) asker source departure labels.now predecessors.now) }
{
    let lent = Network {
        junctions: junctions as usize,
        fences,
        tails,
        heads,
        lengths,
        holds,
        speeds,
    };
    match tables_check(
        &lent,
        closures,
        asker,
        source,
        Tick { number: departure },
        labels,
        predecessors,
    ) {
        Ok(true) => 1,
        Ok(false) => 0,
        Err(refusal) => refusal.code(),
    }
}
