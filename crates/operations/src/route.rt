// Route, as a caller asks it: with a slice of closures.
ghost use Rattle.std.specs.Prelude.{◌≡◌};
ghost use Rattle.model.specs.Lent.{lent_network};
ghost use Rattle.routing.specs.Route.{route_outcome, arrival_of, route_answer, route_arrival, arcs_after};

use closures::rows::{ROWS, read_closures};
use model::closure::Closure;
use model::network::Network;
use model::tick::Tick;
use refusals::refusal::Refusal;
use routing::route::Routed;

pub fn route(
    network: &Network,
    closures: &[Closure],
    asker: u32,
    source: u32,
    departure: Tick,
    destination: u32,
    arcs: &mut [u16],
) -> Result<Routed, Refusal>
    ensures answer { route_outcome result ≡ route_answer (lent_network network.now closures.now) asker source departure.number destination arcs.old }
    ensures arrival { arrival_of result ≡ route_arrival (lent_network network.now closures.now) asker source departure.number destination arcs.old }
    ensures arcs { arcs.new ≡ arcs_after (lent_network network.now closures.now) asker source departure.number destination arcs.old }
{
    let mut table = [[0u32; 4]; ROWS];
    let count = read_closures(closures, &mut table);
    routing::route::route(
        network,
        &table[..count],
        asker,
        source,
        departure,
        destination,
        arcs,
    )
}
