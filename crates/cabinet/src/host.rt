// Host question: the destination's label in the town that a text describes, or a refusal's code.
ghost use Rattle.std.specs.Prelude.{◌≡◌, []};
ghost use Rattle.model.specs.Parties.{brigade};
ghost use Rattle.townfile.specs.Answers.{reading_of};
ghost use Rattle.model.specs.Lent.{lent_network};
ghost use Rattle.routing.specs.Route.{route_outcome, arrival_of, route_answer, route_arrival};
ghost use Rattle.cabinet.specs.Host.{host_list, after_load, after_route, host_answer};

use loading::town::Town;
use model::limit::MAX_JUNCTIONS;
use model::network::Network;
use model::party::BRIGADE;
use model::tick::Tick;
use refusals::refusal::Refusal;
use routing::route::{Routed, route};
use townfile::counts::Counts;
use townfile::fault::Fault;

// The code of Load's refusal; 0 where it loaded.
fn load_code(loaded: Result<Counts, Fault>) -> u32
    ensures { result ≡ after_load (reading_of loaded) 0 }
{
    match loaded {
        Ok(_) => 0,
        Err(fault) => fault.refusal.code(),
    }
}

// The code of Route's refusal; 0 where it found a route.
fn route_code(routed: Result<Routed, Refusal>) -> u32
    ensures { result ≡ after_route (route_outcome routed) 0 }
{
    match routed {
        Ok(_) => 0,
        Err(refusal) => refusal.code(),
    }
}

// Route in a town's network, with room for every route.
fn route_in_town(
    network: &Network<'_>,
    source: u32,
    departure: u32,
    destination: u32,
) -> Result<Routed, Refusal>
    ensures answer { route_outcome result ≡ route_answer (lent_network network.now []) brigade source departure destination host_list }
    ensures arrival { arrival_of result ≡ route_arrival (lent_network network.now []) brigade source departure destination host_list }
{
    let mut list = [0u16; MAX_JUNCTIONS];
    let no_closures = [[0u32; 4]; 0];
    route(
        network,
        &no_closures,
        BRIGADE,
        source,
        Tick { number: departure },
        destination,
        &mut list,
    )
}

// A refusal in either step ends the question at once.
#[unsafe(no_mangle)]
pub extern "C" fn cabinet_host_question(
    text: &[u8],
    source: u32,
    departure: u32,
    destination: u32,
) -> u32
    ensures { result ≡ host_answer text.now source departure destination }
{
    let mut town = Town::empty();
    let loaded = town.load(text);
    let Ok(counts) = loaded else {
        return load_code(loaded);
    };
    let network = town.network(counts);
    let routed = route_in_town(&network, source, departure, destination);
    let Ok(route) = routed else {
        return route_code(routed);
    };
    route.arrival
}
