// Holds at the stop line, by document 02, order 5: on both sides of the limit, of a fence, of midnight and of the last tick, and their refusal
// in its place among the others.
use crate::arcs::print_drive;
use crate::{print_labels, print_labels_of_3};
use driving::road::Road;
use model::network::Network;
use model::party::BRIGADE;
use std::io;

fn print_hold(rt: &impl Print, hold: u32) -> io::Result<()> {
    print!(rt; "hold {hold}, ")
}

// A metre in one tick, with intervals of 100 ticks at the start of the day.
fn print_in_hundreds(rt: &impl Print, hold: u32, departure: u32, interval: u32) -> io::Result<()> {
    let road = Road {
        fences: &[0, 100, 200, 300],
        speeds: &[36; 4],
        metres: 1,
        hold,
    };
    print!(rt; "speed 36, fences 0 100 200 300, ")?;
    print_hold(rt, hold)?;
    print_drive(rt, &road, departure, interval)
}

// What is wrong besides is asked before the hold, or after it.
fn print_at_speed(
    rt: &impl Print,
    speed: u8,
    hold: u32,
    departure: u32,
    interval: u32,
) -> io::Result<()> {
    let road = Road {
        fences: &[0],
        speeds: &[speed],
        metres: 1,
        hold,
    };
    print_hold(rt, hold)?;
    print!(rt; "speed {speed}, ")?;
    print_drive(rt, &road, departure, interval)
}

// Two arcs to one junction, the second twice as long, and a third on from there that moves from tick 100 on.
fn print_two_ways(rt: &impl Print, first: u16, second: u16, departure: u32) -> io::Result<()> {
    let network = Network {
        junctions: 3,
        fences: &[0, 100],
        tails: &[0, 0, 1],
        heads: &[1, 1, 2],
        lengths: &[10, 20, 10],
        holds: &[first, second, 0],
        speeds: &[36, 36, 36, 36, 0, 36],
    };
    print!(rt; "two ways with holds {first} and {second} from {departure}:")?;
    print_labels_of_3(rt, &network, departure)
}

// As many holds as are lent, for one arc.
fn print_one_way(rt: &impl Print, holds: &[u16]) -> io::Result<()> {
    let network = Network {
        junctions: 2,
        fences: &[0],
        tails: &[0],
        heads: &[1],
        lengths: &[10],
        holds,
        speeds: &[36],
    };
    print!(rt; "one way, holds of {} arcs:", holds.len())?;
    print_labels::<2>(rt, &network, &[], BRIGADE, 0)?;
    println!(rt)
}

fn print_hold_tables(rt: &impl Print) -> io::Result<()> {
    print_one_way(rt, &[])?;
    print_one_way(rt, &[5])?;
    print_one_way(rt, &[5; 2])
}

pub(crate) fn print_rows(rt: &impl Print) -> io::Result<()> {
    for (hold, departure, interval) in [
        (0, 0, 0),
        (1, 0, 0),
        (1_200, 0, 0),
        (1_201, 0, 0),
        (u32::MAX, 0, 0),
        // To a fence, over it, and over two more.
        (0, 98, 0),
        (1, 98, 0),
        (2, 98, 0),
        (250, 98, 0),
        // To midnight, over it, and to the same interval of the next day.
        (0, 863_998, 3),
        (1, 863_998, 3),
        (101, 863_998, 3),
        (301, 863_998, 3),
        // To the last tick and past it.
        (0, 1_727_999, 3),
        (1, 1_727_999, 3),
        (1, 1_727_998, 3),
        (1_200, 1_726_799, 3),
        (1_200, 1_726_800, 3),
    ] {
        print_in_hundreds(rt, hold, departure, interval)?;
    }
    // 8, then 32, then 15, then 46.
    for (speed, hold, departure) in [
        (201, 1_201, 1_728_001),
        (200, 1_201, 1_728_001),
        (200, 1_200, 1_728_001),
        (200, 1_200, 1_728_000),
        (200, 1_201, 1_728_000),
    ] {
        print_at_speed(rt, speed, hold, departure, 1)?;
    }
    // The later arrival has the smaller hold, or both end at once; the next arc is left after the hold.
    for (first, second, departure) in [
        (0, 0, 0),
        (30, 10, 0),
        (20, 10, 0),
        (300, 290, 0),
        (1_201, 0, 0),
        (1_201, 0, 864_000),
    ] {
        print_two_ways(rt, first, second, departure)?;
    }
    print_hold_tables(rt)
}
