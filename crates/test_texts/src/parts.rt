// Parts of tables lent to Load, of which some are too short.
ghost use Rattle.std.specs.Prelude.{◌≤◌};

use crate::{print_answer, print_arc, print_fences};
use loading::load::load;
use std::io;
use townfile::tables::Tables;

// How many entries of each table are lent.
#[derive(Clone, Copy)]
struct Room {
    fences: usize,
    tails: usize,
    heads: usize,
    lengths: usize,
    holds: usize,
    speeds: usize,
}

// What the sample town needs.
const NEEDED: Room = Room {
    fences: 2,
    tails: 3,
    heads: 3,
    lengths: 3,
    holds: 3,
    speeds: 6,
};

const NONE: Room = Room {
    fences: 0,
    tails: 0,
    heads: 0,
    lengths: 0,
    holds: 0,
    speeds: 0,
};

// Tables for two intervals and three arcs, and the entry behind them.
fn print_whole(rt: &impl Print, tables: &Tables<'_>) -> io::Result<()> {
    print_fences(rt, 3, tables)?;
    print_arc(rt, 0, 0, 2, tables)?;
    print_arc(rt, 1, 2, 4, tables)?;
    print_arc(rt, 2, 4, 6, tables)?;
    print_arc(rt, 3, 6, 7, tables)
}

// The tables have one entry more than the sample town needs.
fn print_parts(rt: &impl Print, text: &[u8], room: Room) -> io::Result<()>
    requires fences_bound { room.fences ≤ 3 }
    requires tails_bound { room.tails ≤ 4 }
    requires heads_bound { room.heads ≤ 4 }
    requires lengths_bound { room.lengths ≤ 4 }
    requires holds_bound { room.holds ≤ 4 }
    requires speeds_bound { room.speeds ≤ 7 }
{
    let mut fences = [9u32; 3];
    let mut tails = [9u16; 4];
    let mut heads = [9u16; 4];
    let mut lengths = [9u32; 4];
    let mut holds = [9u16; 4];
    let mut speeds = [9u8; 7];
    let mut lent = Tables {
        fences: &mut fences[..room.fences],
        tails: &mut tails[..room.tails],
        heads: &mut heads[..room.heads],
        lengths: &mut lengths[..room.lengths],
        holds: &mut holds[..room.holds],
        speeds: &mut speeds[..room.speeds],
    };
    let answer = load(text, &mut lent);
    print!(rt;
        "room {} {} {} {} {} {}",
        room.fences, room.tails, room.heads, room.lengths, room.holds, room.speeds,
    )?;
    print_answer(rt, answer)?;
    let whole = Tables {
        fences: &mut fences,
        tails: &mut tails,
        heads: &mut heads,
        lengths: &mut lengths,
        holds: &mut holds,
        speeds: &mut speeds,
    };
    print_whole(rt, &whole)
}

// The sample town, the same arcs with holds, a town without arcs in either form, and a text that ends too early.
pub(crate) fn print_all_parts(rt: &impl Print) -> io::Result<()> {
    let sample =
        b"TN 3 2\nFN 0 100\nJN 0 Mill Cross\nAR 0 1 50 36 18\nAR 0 2 100 40 20\nAR 1 2 50 36 36\n";
    let held = b"TW 3 2\nFN 0 100\nAR 0 1 50 36 18 0\nAR 0 2 100 40 20 1\nAR 1 2 50 36 36 1200\n";
    let more = Room {
        fences: 3,
        tails: 4,
        heads: 4,
        lengths: 4,
        holds: 4,
        speeds: 7,
    };
    print_parts(rt, sample, NEEDED)?;
    print_parts(rt, sample, more)?;
    print_parts(
        rt,
        sample,
        Room {
            fences: 1,
            ..NEEDED
        },
    )?;
    print_parts(rt, sample, Room { tails: 2, ..NEEDED })?;
    print_parts(rt, sample, Room { heads: 2, ..NEEDED })?;
    print_parts(
        rt,
        sample,
        Room {
            lengths: 2,
            ..NEEDED
        },
    )?;
    print_parts(rt, sample, Room { holds: 2, ..NEEDED })?;
    print_parts(
        rt,
        sample,
        Room {
            speeds: 5,
            ..NEEDED
        },
    )?;
    print_parts(rt, sample, NONE)?;
    print_parts(rt, held, NEEDED)?;
    print_parts(rt, held, Room { holds: 2, ..NEEDED })?;
    print_parts(rt, held, NONE)?;
    let fences_only = Room { fences: 2, ..NONE };
    print_parts(rt, b"TN 3 2\nFN 0 100\n", fences_only)?;
    print_parts(rt, b"TW 3 2\nFN 0 100\n", fences_only)?;
    print_parts(rt, b"TN 3 2\n", NONE)
}
