// Roadworks, by document 02, order 7: closures on both sides of a departure, of an arrival, of midnight, of a hold and of the last tick, and their
// refusals in their place among the others. Two streets in a row, each of ten metres at a metre a tick.
use crate::print_labels;
use model::network::Network;
use model::party::{BOTH, BRIGADE};
use std::io;

// Most rows are of records for both, which say nothing of it.
fn print_party(rt: &impl Print, party: u32) -> io::Result<()> {
    if party != BOTH {
        print!(rt; " for {party}")?;
    }
    Ok(())
}

fn print_record(rt: &impl Print, row: [u32; 4]) -> io::Result<()> {
    print!(rt; " {}:{}-{}", row[0], row[1], row[2])?;
    print_party(rt, row[3])
}

// Of a long list its first three records alone.
fn print_closures(rt: &impl Print, closures: &[[u32; 4]]) -> io::Result<()> {
    print!(rt; ", closed")?;
    for row in closures.iter().take(3) {
        print_record(rt, *row)?;
    }
    print!(rt; " ({}):", closures.len())
}

// The first street has a hold at its end.
pub(crate) fn print_streets(
    rt: &impl Print,
    departure: u32,
    hold: u16,
    closures: &[[u32; 4]],
    asker: u32,
) -> io::Result<()> {
    let network = Network {
        junctions: 3,
        fences: &[0],
        tails: &[0, 1],
        heads: &[1, 2],
        lengths: &[10; 2],
        holds: &[hold, 0],
        speeds: &[36; 2],
    };
    print!(rt; "two streets from {departure}, hold {hold}")?;
    print_closures(rt, closures)?;
    print_labels::<3>(rt, &network, closures, asker, departure)?;
    println!(rt)
}

fn print_one(rt: &impl Print, departure: u32, hold: u16, row: [u32; 4]) -> io::Result<()> {
    print_streets(rt, departure, hold, &[row], BRIGADE)
}

// As many records as a question may bring, and one more.
fn print_lists(rt: &impl Print, hold: u16, row: [u32; 4]) -> io::Result<()> {
    print_streets(rt, 100, hold, &[row; 64], BRIGADE)?;
    print_streets(rt, 100, hold, &[row; 65], BRIGADE)
}

pub(crate) fn print_rows(rt: &impl Print) -> io::Result<()> {
    print_streets(rt, 100, 0, &[], BRIGADE)?;
    for (departure, hold, arc, first, end) in [
        // From the tick before the departure on, from it on, and from the tick after it on.
        (100, 0, 0, 99, 105),
        (100, 0, 0, 100, 105),
        (100, 0, 0, 101, 105),
        // Up to the tick before what would be the arrival, up to it, and up to the tick after it.
        (100, 0, 0, 105, 109),
        (100, 0, 0, 105, 110),
        (100, 0, 0, 105, 111),
        // Just after the arrival, and just before it.
        (100, 0, 0, 110, 120),
        (100, 0, 0, 109, 120),
        // Up to the departure: not closed any more.
        (100, 0, 0, 90, 100),
        // Across midnight; and the same hours are open on the other day.
        (863_995, 0, 0, 863_998, 864_004),
        (863_999, 100, 1, 109, 119),
        (863_999, 100, 1, 864_109, 864_119),
        // A hold runs on through a closure.
        (100, 50, 0, 110, 160),
        // Over a whole day, and up to the last ticks.
        (100, 0, 0, 0, 864_000),
        (100, 0, 0, 0, 1_727_980),
        (100, 0, 0, 0, 1_727_990),
        (100, 0, 0, 0, 1_727_991),
        (100, 0, 0, 0, 1_728_000),
        // The other street.
        (100, 0, 1, 110, 115),
    ] {
        print_one(rt, departure, hold, [arc, first, end, BOTH])?;
    }
    // Records that overlap, that adjoin, in another order, and one twice.
    for rows in [
        [[0, 102, 106, BOTH], [0, 104, 108, BOTH], [1, 0, 1, BOTH]],
        [[0, 102, 105, BOTH], [0, 105, 108, BOTH], [1, 0, 1, BOTH]],
        [[0, 105, 108, BOTH], [1, 0, 1, BOTH], [0, 102, 105, BOTH]],
        [
            [0, 102, 108, BOTH],
            [0, 102, 108, BOTH],
            [0, 103, 107, BOTH],
        ],
    ] {
        print_streets(rt, 100, 0, &rows, BRIGADE)?;
    }
    // 64 records and 65. 32 comes before 36, and 36 before 37.
    print_lists(rt, 0, [0, 0, 1, BOTH])?;
    print_lists(rt, 1_201, [0, 0, 1, BOTH])?;
    print_lists(rt, 0, [2, 0, 1, BOTH])?;
    for (departure, arc, first, end) in [
        // Each part of 37 on both sides of its limit.
        (100, 1, 0, 1),
        (100, 2, 0, 1),
        (100, 0, 100, 101),
        (100, 0, 101, 101),
        (100, 0, 102, 101),
        (100, 0, 1_727_999, 1_728_000),
        (100, 0, 1_727_999, 1_728_001),
        (100, u32::MAX, 0, u32::MAX),
        // 37 comes before 10.
        (864_000, 2, 0, 1),
        (864_000, 1, 0, 1),
    ] {
        print_one(rt, departure, 0, [arc, first, end, BOTH])?;
    }
    Ok(())
}
