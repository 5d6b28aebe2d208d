// The reckonings of document 01 that are run and not proved, and others around midnight, with wrong intervals, with holds, with closures and for both parties, each on
// a line with what the operation answers. By document 02, order 5, "the rows to keep (..) have hold 0".
#![tactic(auto)]

ghost use Rattle.std.specs.Prelude.{◌≤◌};

use labelling::labels::labels;
use model::network::Network;
use model::party::BRIGADE;
use model::tick::Tick;
use refusals::refusal::Refusal;
use routing::route::{Routed, route};
use std::{array, io};

mod arcs;
mod holds;
mod intervals;
mod midnight;
mod parties;
mod roadworks;
mod table_1;

fn print_refusal(rt: &impl Print, refusal: Refusal) -> io::Result<()> {
    print!(rt; " refused {}", refusal.number())
}

// A label and, after a colon, the predecessor.
fn print_label(rt: &impl Print, label: u32, predecessor: u16) -> io::Result<()> {
    print!(rt; " {label}:{predecessor}")
}

fn print_entry(rt: &impl Print, entry: u16) -> io::Result<()> {
    print!(rt; " {entry}")
}

fn print_route(rt: &impl Print, answer: Result<Routed, Refusal>) -> io::Result<()> {
    match answer {
        Ok(routed) => print!(rt; " arcs {}", routed.count),
        Err(refusal) => print_refusal(rt, refusal),
    }
}

fn print_each_label(rt: &impl Print, earliest: &[u32], predecessors: &[u16]) -> io::Result<()> {
    for (label, predecessor) in earliest.iter().zip(predecessors) {
        print_label(rt, *label, *predecessor)?;
    }
    Ok(())
}

// The labels from the first junction, of a network with N of them.
fn print_labels<const N: usize>(
    rt: &impl Print,
    network: &Network,
    closures: &[[u32; 4]],
    asker: u32,
    departure: u32,
) -> io::Result<()>
    requires { N ≤ 200 }
{
    let mut earliest = [0u32; N];
    let mut predecessors = [0u16; N];
    match labels(
        network,
        closures,
        asker,
        0,
        Tick { number: departure },
        &mut earliest,
        &mut predecessors,
    ) {
        Ok(()) => print_each_label(rt, &earliest, &predecessors),
        Err(refusal) => print_refusal(rt, refusal),
    }
}

// The labels of three junctions, to the line's end.
fn print_labels_of_3(rt: &impl Print, network: &Network, departure: u32) -> io::Result<()> {
    print_labels::<3>(rt, network, &[], BRIGADE, departure)?;
    println!(rt)
}

// The sample town at tick 10.
fn print_sample(
    rt: &impl Print,
    source: u32,
    destination: u32,
    arcs: &mut [u16],
) -> io::Result<()> {
    let network = Network {
        junctions: 3,
        fences: &[0, 100],
        tails: &[0, 0, 1],
        heads: &[1, 2, 2],
        lengths: &[50, 100, 50],
        holds: &[0; 3],
        speeds: &[36, 18, 40, 20, 36, 36],
    };
    print!(rt;
        "sample town from {source} to {destination}, room {}:",
        arcs.len()
    )?;
    let tick = Tick { number: 10 };
    print_route(
        rt,
        route(&network, &[], BRIGADE, source, tick, destination, arcs),
    )
}

fn print_samples_without_room(rt: &impl Print) -> io::Result<()> {
    let mut arcs = [9u16; 0];
    print_sample(rt, 0, 0, &mut arcs)?;
    println!(rt)?;
    print_sample(rt, 0, 2, &mut arcs)?;
    println!(rt)
}

fn print_sample_with_room(rt: &impl Print, source: u32, destination: u32) -> io::Result<()> {
    let mut arcs = [9u16; 2];
    print_sample(rt, source, destination, &mut arcs)?;
    print!(rt; ", list")?;
    print_entry(rt, arcs[0])?;
    print_entry(rt, arcs[1])?;
    println!(rt)
}

fn print_sample_with_just_room(rt: &impl Print) -> io::Result<()> {
    let mut arcs = [9u16; 1];
    print_sample(rt, 0, 2, &mut arcs)?;
    print!(rt; ", list")?;
    print_entry(rt, arcs[0])?;
    println!(rt)
}

// Arcs from each of 200 junctions to the next, numbered from the far end.
fn print_row_of_junctions(rt: &impl Print, arcs: &mut [u16]) -> io::Result<()> {
    let tails: [u16; 199] = array::from_fn(|a| 198 - a as u16);
    let heads: [u16; 199] = array::from_fn(|a| 199 - a as u16);
    let network = Network {
        junctions: 200,
        fences: &[0],
        tails: &tails,
        heads: &heads,
        lengths: &[10; 199],
        holds: &[0; 199],
        speeds: &[36; 199],
    };
    print!(rt; "200 junctions in a row, room {}:", arcs.len())?;
    let tick = Tick { number: 0 };
    print_route(rt, route(&network, &[], BRIGADE, 0, tick, 199, arcs))
}

fn print_row_without_room(rt: &impl Print) -> io::Result<()> {
    let mut arcs = [999u16; 198];
    print_row_of_junctions(rt, &mut arcs)?;
    print!(rt; ", first and last entry")?;
    print_entry(rt, arcs[0])?;
    print_entry(rt, arcs[197])?;
    println!(rt)
}

fn print_row_with_just_room(rt: &impl Print) -> io::Result<()> {
    let mut arcs = [999u16; 199];
    print_row_of_junctions(rt, &mut arcs)?;
    print!(rt; ", first and last entry")?;
    print_entry(rt, arcs[0])?;
    print_entry(rt, arcs[198])?;
    println!(rt)
}

fn print_all(rt: &impl Print) -> io::Result<()> {
    for (metres, speed) in [(100_000, 200), (100_001, 200), (100_000, 201)] {
        arcs::print_row(rt, metres, speed)?;
    }
    for departure in [9_000, 21_000, 24_000, 27_000, 863_999, 864_000] {
        table_1::print_table_1(rt, departure)?;
    }
    print_samples_without_room(rt)?;
    print_sample_with_just_room(rt)?;
    for (source, destination) in [(0, 2), (2, 0), (0, 3)] {
        print_sample_with_room(rt, source, destination)?;
    }
    print_row_without_room(rt)?;
    print_row_with_just_room(rt)?;
    midnight::print_rows(rt)?;
    intervals::print_rows(rt)?;
    holds::print_rows(rt)?;
    roadworks::print_rows(rt)?;
    parties::print_rows(rt)
}

fn main(rt: HostRuntime) -> io::Result<()> {
    print_all(&rt)
}
