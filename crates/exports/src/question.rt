// Labels, Sheet and Route, over lent tables with a slice of closures.
ghost use Rattle.std.specs.Prelude.{◌≡◌};
ghost use Rattle.model.specs.Network.{network};
ghost use Rattle.labelling.specs.Labels.{labels_answer, labels_after, predecessors_after};
ghost use Rattle.sheeting.specs.Sheet.{sheet_answer, sheet_labels_after, sheet_figures_after};
ghost use Rattle.routing.specs.Route.{route_answer, arcs_after};
ghost use Rattle.exports.specs.Codes.{number_or0, count_code};

use model::closure::Closure;
use model::network::Network;
use model::tick::Tick;
use operations::{labels, route, sheet};

// 0, or the refusal's number.
#[unsafe(no_mangle)]
pub extern "C" fn exports_labels(
    junctions: u32,
    fences: &[u32],
    tails: &[u16],
    heads: &[u16],
    lengths: &[u32],
    holds: &[u16],
    speeds: &[u8],
    closures: &[Closure],
    asker: u32,
    source: u32,
    departure: u32,
    labels: &mut [u32],
    predecessors: &mut [u16],
) -> u32
    ensures answer { result ≡
        number_or0 (labels_answer (network junctions fences.now tails.now heads.now lengths.now holds.now speeds.now closures.now) asker source departure labels.old predecessors.old) }
    ensures labels { labels.new ≡ labels_after (network junctions fences.now tails.now heads.now lengths.now holds.now speeds.now closures.now) asker source departure labels.old predecessors.old }
    ensures predecessors { predecessors.new ≡
        predecessors_after (network junctions fences.now tails.now heads.now lengths.now holds.now speeds.now closures.now) asker source departure labels.old predecessors.old }
{
    let lent = Network {
        junctions: junctions as usize,
        fences,
        tails,
        heads,
        lengths,
        holds,
        speeds,
    };
    match labels::labels(
        &lent,
        closures,
        asker,
        source,
        Tick { number: departure },
        labels,
        predecessors,
    ) {
        Ok(()) => 0,
        Err(refusal) => refusal.number(),
    }
}

// 0, or the refusal's number.
#[unsafe(no_mangle)]
pub extern "C" fn exports_sheet(
    junctions: u32,
    fences: &[u32],
    tails: &[u16],
    heads: &[u16],
    lengths: &[u32],
    holds: &[u16],
    speeds: &[u8],
    closures: &[Closure],
    asker: u32,
    source: u32,
    departures: &[u32],
    labels: &mut [u32],
    figures: &mut [u32],
) -> u32
    ensures answer { result ≡
        number_or0 (sheet_answer (network junctions fences.now tails.now heads.now lengths.now holds.now speeds.now closures.now) asker source departures.now labels.old figures.old) }
    ensures labels { labels.new ≡
        sheet_labels_after (network junctions fences.now tails.now heads.now lengths.now holds.now speeds.now closures.now) asker source departures.now labels.old figures.old }
    ensures figures { figures.new ≡
        sheet_figures_after (network junctions fences.now tails.now heads.now lengths.now holds.now speeds.now closures.now) asker source departures.now labels.old figures.old }
{
    let lent = Network {
        junctions: junctions as usize,
        fences,
        tails,
        heads,
        lengths,
        holds,
        speeds,
    };
    match sheet::sheet(&lent, closures, asker, source, departures, labels, figures) {
        Ok(()) => 0,
        Err(refusal) => refusal.number(),
    }
}

// The number of arcs, or the refusal's code.
#[unsafe(no_mangle)]
pub extern "C" fn exports_route(
    junctions: u32,
    fences: &[u32],
    tails: &[u16],
    heads: &[u16],
    lengths: &[u32],
    holds: &[u16],
    speeds: &[u8],
    closures: &[Closure],
    asker: u32,
    source: u32,
    departure: u32,
    destination: u32,
    arcs: &mut [u16],
) -> u32
    ensures answer { result ≡ count_code (route_answer (network junctions fences.now tails.now heads.now lengths.now holds.now speeds.now closures.now) asker source departure destination arcs.old) }
    ensures arcs { arcs.new ≡ arcs_after (network junctions fences.now tails.now heads.now lengths.now holds.now speeds.now closures.now) asker source departure destination arcs.old }
{
    let lent = Network {
        junctions: junctions as usize,
        fences,
        tails,
        heads,
        lengths,
        holds,
        speeds,
    };
    match route::route(
        &lent,
        closures,
        asker,
        source,
        Tick { number: departure },
        destination,
        arcs,
    ) {
        Ok(routed) => routed.count,
        Err(refusal) => refusal.code(),
    }
}
