// Buses on the same tables, by document 02, order 8: whom a closure stops, and the refusals of a party and of an asker in their place among the others.
use crate::roadworks::print_streets;
use model::party::{BOTH, BRIGADE, DEPOT};
use std::io;

fn print_asked(
    rt: &impl Print,
    departure: u32,
    closures: &[[u32; 4]],
    asker: u32,
) -> io::Result<()> {
    print!(rt; "asker {asker}, ")?;
    print_streets(rt, departure, 0, closures, asker)
}

fn print_one(rt: &impl Print, asker: u32, row: [u32; 4]) -> io::Result<()> {
    print_asked(rt, 100, &[row], asker)
}

fn print_two(rt: &impl Print, asker: u32, a: [u32; 4], b: [u32; 4]) -> io::Result<()> {
    print_asked(rt, 100, &[a, b], asker)
}

// The first street is closed to a party, or to both, from the departure on.
fn print_stopped(rt: &impl Print, asker: u32) -> io::Result<()> {
    for party in [BOTH, BRIGADE, DEPOT] {
        print_one(rt, asker, [0, 100, 105, party])?;
    }
    Ok(())
}

// Two lists with the same records for both and for the brigade. The depot's differ in number, place and order, and not in what they close.
fn print_others(rt: &impl Print, asker: u32) -> io::Result<()> {
    let first = [
        [1, 0, 1_000, DEPOT],
        [0, 100, 105, BRIGADE],
        [0, 0, 1_000, DEPOT],
        [1, 115, 118, BOTH],
        [0, 200, 201, DEPOT],
    ];
    let second = [
        [0, 100, 105, BRIGADE],
        [1, 115, 118, BOTH],
        [0, 0, 1_000, DEPOT],
        [1, 0, 1_000, DEPOT],
    ];
    print_asked(rt, 100, &first, asker)?;
    print_asked(rt, 100, &second, asker)
}

// As many records as a question may bring, and one more, whoever asks.
fn print_lists(rt: &impl Print, party: u32) -> io::Result<()> {
    let row = [0, 100, 105, party];
    print_asked(rt, 100, &[row; 64], BRIGADE)?;
    print_asked(rt, 100, &[row; 65], BRIGADE)
}

// Who is not known is refused, with records and without, before the departure is looked at.
fn print_unknown(rt: &impl Print, asker: u32) -> io::Result<()> {
    print_asked(rt, 100, &[], asker)?;
    print_asked(rt, 864_000, &[], asker)?;
    print_one(rt, asker, [0, 100, 105, BOTH])
}

pub(crate) fn print_rows(rt: &impl Print) -> io::Result<()> {
    for asker in [BRIGADE, DEPOT] {
        print_stopped(rt, asker)?;
    }
    for asker in [BRIGADE, DEPOT] {
        print_others(rt, asker)?;
    }
    // A record of each on the same street: the asker waits for its own and for both.
    print_two(rt, BRIGADE, [0, 100, 103, DEPOT], [0, 102, 106, BRIGADE])?;
    print_two(rt, DEPOT, [0, 100, 103, DEPOT], [0, 102, 106, BRIGADE])?;
    print_two(rt, DEPOT, [0, 100, 103, DEPOT], [0, 102, 106, BOTH])?;
    // The depot's records are counted, and held to 37 and 38, when the brigade asks.
    print_lists(rt, DEPOT)?;
    print_one(rt, BRIGADE, [2, 0, 1, DEPOT])?;
    print_one(rt, BRIGADE, [0, 101, 101, DEPOT])?;
    // A party on both sides of its limit. 37 in a later record comes first.
    print_one(rt, BRIGADE, [0, 100, 105, 3])?;
    print_one(rt, BRIGADE, [0, 100, 105, u32::MAX])?;
    print_two(rt, BRIGADE, [0, 100, 105, 3], [2, 0, 1, BOTH])?;
    print_two(rt, BRIGADE, [0, 100, 105, BOTH], [1, 0, 1, 3])?;
    // 39, and 38 before it.
    for asker in [0, 3, u32::MAX] {
        print_unknown(rt, asker)?;
    }
    print_one(rt, 3, [0, 100, 105, 3])
}
