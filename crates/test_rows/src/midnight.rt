// Reckonings around midnight, by document 02, order 2: plans start again.
use crate::arcs::print_drive;
use crate::print_labels_of_3;
use driving::road::Road;
use model::network::Network;
use std::io;

// A plan that moves one metre a day, in its last tick: left in that tick of either day, and at either midnight.
fn print_last_tick(rt: &impl Print, departure: u32, interval: u32) -> io::Result<()> {
    let road = Road {
        fences: &[0, 863_999],
        speeds: &[0, 36],
        metres: 1,
        hold: 0,
    };
    print!(rt; "a metre in the day's last tick, ")?;
    print_drive(rt, &road, departure, interval)
}

// A plan that moves 100 metres a day, from tick 100 to tick 200 of it.
fn print_moving(rt: &impl Print, metres: u32, departure: u32, interval: u32) -> io::Result<()> {
    let road = Road {
        fences: &[0, 100, 200],
        speeds: &[0, 36, 0],
        metres,
        hold: 0,
    };
    print!(rt; "100 metres a day, ")?;
    print_drive(rt, &road, departure, interval)
}

// Two arcs of 10 metres in turn, one of which is twice as fast in one half of the day.
fn print_halves(rt: &impl Print, morning: u8, evening: u8, departure: u32) -> io::Result<()> {
    let network = Network {
        junctions: 3,
        fences: &[0, 432_000],
        tails: &[0, 1],
        heads: &[1, 2],
        lengths: &[10; 2],
        holds: &[0; 2],
        speeds: &[36, 36, morning, evening],
    };
    print!(rt; "half days of {morning} and {evening}:")?;
    print_labels_of_3(rt, &network, departure)
}

pub(crate) fn print_rows(rt: &impl Print) -> io::Result<()> {
    for (departure, interval) in [(863_999, 1), (864_000, 0), (1_727_999, 1), (1_728_000, 0)] {
        print_last_tick(rt, departure, interval)?;
    }
    for (metres, departure, interval) in [
        (150, 0, 0),
        (200, 0, 0),
        (201, 0, 0),
        (1, 864_199, 1),
        (1, 864_200, 2),
    ] {
        print_moving(rt, metres, departure, interval)?;
    }
    print_halves(rt, 72, 36, 863_990)?;
    print_halves(rt, 36, 72, 431_990)
}
