// Document 004's Table 1 network: its labels and its routes.
use crate::{print_entry, print_labels, print_route};
use model::network::Network;
use model::party::BRIGADE;
use model::tick::Tick;
use routing::route::route;
use std::io;

// The route from the first of five junctions to the last, and a list of three.
fn print_route_of_5(rt: &impl Print, network: &Network, departure: u32) -> io::Result<()> {
    let mut arcs = [9u16; 3];
    let tick = Tick { number: departure };
    print_route(rt, route(network, &[], BRIGADE, 0, tick, 4, &mut arcs))?;
    print!(rt; ", list")?;
    for arc in arcs {
        print_entry(rt, arc)?;
    }
    Ok(())
}

// Document 004's Table 1 network: o, a, b, c, d as 0 to 4. After the labels comes the route to d.
pub(crate) fn print_table_1(rt: &impl Print, departure: u32) -> io::Result<()> {
    let network = Network {
        junctions: 5,
        fences: &[
            0, 6_000, 12_000, 18_000, 24_000, 30_000, 36_000, 42_000, 48_000,
        ],
        tails: &[0, 0, 1, 1, 2, 2, 3],
        heads: &[1, 2, 2, 3, 3, 4, 4],
        lengths: &[10_000; 7],
        holds: &[0; 7],
        speeds: &[
            40, 40, 40, 40, 40, 40, 40, 40, 40, 60, 30, 10, 20, 40, 60, 60, 60, 60, 60, 40, 30, 40,
            60, 60, 60, 60, 60, 40, 40, 40, 40, 40, 40, 40, 40, 40, 60, 60, 60, 60, 40, 30, 60, 60,
            60, 60, 60, 60, 60, 60, 30, 10, 30, 60, 40, 40, 40, 40, 40, 40, 40, 40, 40,
        ],
    };
    print!(rt; "Table 1 from {departure}:")?;
    print_labels::<5>(rt, &network, &[], BRIGADE, departure)?;
    print!(rt; "; route:")?;
    print_route_of_5(rt, &network, departure)?;
    println!(rt)
}
