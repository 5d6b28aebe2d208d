// Network check and Arc arrival, over lent tables.
ghost use Rattle.std.specs.Prelude.{◌≡◌, []};
ghost use Rattle.model.specs.Network.{network};
ghost use Rattle.model.specs.NetworkRules.{network_check_lem};
ghost use Rattle.arc_arrival.specs.ArcArrival.{arc_arrival_lem};
ghost use Rattle.exports.specs.Codes.{number_or0, arrival_code};

use crate::bit::{BIT_32, BIT_62, BIT_63};
use arc_arrival::arc::arc_arrival;
use checking::network::network_check;
use driving::road::Road;
use model::network::Network;
use model::tick::Tick;

// 0, or the refusal's number.
#[unsafe(no_mangle)]
pub extern "C" fn exports_network_check(
    junctions: u32,
    fences: &[u32],
    tails: &[u16],
    heads: &[u16],
    lengths: &[u32],
    holds: &[u16],
    speeds: &[u8],
) -> u32
    ensures { result ≡ number_or0 (network_check_lem (network junctions fences.now tails.now heads.now lengths.now holds.now speeds.now [])) }
{
    let lent = Network {
        junctions: junctions as usize,
        fences,
        tails,
        heads,
        lengths,
        holds,
        speeds,
    };
    match network_check(&lent) {
        Ok(()) => 0,
        Err(refusal) => refusal.number(),
    }
}

// tick + interval × 2^32; 2^62 where the arc cannot be driven; 2^63 + the refusal's number.
#[unsafe(no_mangle)]
pub extern "C" fn exports_arc_arrival(
    departure: u32,
    interval: u32,
    metres: u32,
    hold: u32,
    fences: &[u32],
    speeds: &[u8],
) -> u64
    ensures { result ≡ arrival_code (arc_arrival_lem departure interval metres hold fences.now speeds.now) }
{
    let road = Road {
        fences,
        speeds,
        metres,
        hold,
    };
    match arc_arrival(&road, Tick { number: departure }, interval) {
        Ok(Some(arrival)) => arrival.tick.number as u64 + arrival.interval as u64 * BIT_32,
        Ok(None) => BIT_62,
        Err(refusal) => BIT_63 + refusal.number() as u64,
    }
}
