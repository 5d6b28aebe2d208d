// What Load and Name answer for the stored town files, which the arguments name, and what the lent tables then hold. Every
// entry is 9 before a call.
#![tactic(auto)]

use loading::load::load;
use naming::name::name;
use std::fmt::Display;
use std::fs::File;
use std::{env, io};
use streams::input::read_all;
use streams::reason::fail;
use townfile::counts::Counts;
use townfile::fault::Fault;
use townfile::tables::Tables;

mod parts;

// Longer than any file that Load takes, so that a longer one is seen to be longer.
const ROOM: usize = 65_538;

// ---- Numbers, each after a space

// The entries from one place up to another, as far as the table has them.
fn print_entries<T: Display>(
    rt: &impl Print,
    table: &[T],
    from: usize,
    to: usize,
) -> io::Result<()> {
    for entry in table.iter().take(to).skip(from) {
        print!(rt; " {entry}")?;
    }
    Ok(())
}

// The entry at a place, if the table has it.
fn print_entry<T: Display>(rt: &impl Print, table: &[T], at: usize) -> io::Result<()> {
    if let Some(entry) = table.get(at) {
        print!(rt; " {entry}")?;
    }
    Ok(())
}

// ---- A stored town file, loaded into tables that are long enough

pub(crate) fn print_answer(rt: &impl Print, answer: Result<Counts, Fault>) -> io::Result<()> {
    match answer {
        Ok(
            Counts {
                junctions,
                intervals,
                arcs,
            },
        ) => { println!(rt; ": junctions {junctions} intervals {intervals} arcs {arcs}") }
        Err(Fault { refusal, line }) => {
            println!(rt; ": refused {} line {line}", refusal.number())
        }
    }
}

fn print_name(rt: &impl Print, text: &[u8], junction: u32) -> io::Result<()> {
    print!(rt; " [")?;
    rt.write_all(name(text, junction))?;
    print!(rt; "]")
}

// The first three junctions and the highest that there can be.
fn print_names(rt: &impl Print, text: &[u8]) -> io::Result<()> {
    print!(rt; "names")?;
    print_name(rt, text, 0)?;
    print_name(rt, text, 1)?;
    print_name(rt, text, 2)?;
    print_name(rt, text, 199)?;
    println!(rt)
}

// How many speeds the arcs have together.
fn speed_count(arcs: u32, intervals: u32) -> usize {
    (arcs as usize) * (intervals as usize)
}

// One entry of each table.
fn print_across(
    rt: &impl Print,
    interval: usize,
    arc: usize,
    speed: usize,
    tables: &Tables<'_>,
) -> io::Result<()> {
    print_entry(rt, tables.fences, interval)?;
    print_ends(rt, arc, tables)?;
    print_entry(rt, tables.speeds, speed)?;
    println!(rt)
}

// An arc's tail, head, length and hold.
fn print_ends(rt: &impl Print, arc: usize, tables: &Tables<'_>) -> io::Result<()> {
    print_entry(rt, tables.tails, arc)?;
    print_entry(rt, tables.heads, arc)?;
    print_entry(rt, tables.lengths, arc)?;
    print_entry(rt, tables.holds, arc)
}

// The same, and its speeds, from one place up to another.
pub(crate) fn print_arc(
    rt: &impl Print,
    arc: usize,
    from: usize,
    to: usize,
    tables: &Tables<'_>,
) -> io::Result<()> {
    print!(rt; "arc")?;
    print_ends(rt, arc, tables)?;
    print_entries(rt, tables.speeds, from, to)?;
    println!(rt)
}

// So many fences.
pub(crate) fn print_fences(rt: &impl Print, count: usize, tables: &Tables<'_>) -> io::Result<()> {
    print!(rt; "fences")?;
    print_entries(rt, tables.fences, 0, count)?;
    println!(rt)
}

// The fences, the first two arcs, and of each table the entry behind those that were written.
fn print_town(rt: &impl Print, intervals: u32, arcs: u32, tables: &Tables<'_>) -> io::Result<()> {
    let width = intervals as usize;
    let count = arcs as usize;
    print_fences(rt, width, tables)?;
    if 0 < count {
        print_arc(rt, 0, 0, width, tables)?;
    }
    if 1 < count {
        print_arc(rt, 1, width, width + width, tables)?;
    }
    print!(rt; "then")?;
    print_across(rt, width, count, speed_count(arcs, intervals), tables)
}

// Where a text is refused, a changed table shows in its first entry.
fn print_block(rt: &impl Print, title: &[u8], text: &[u8]) -> io::Result<()> {
    rt.write_all(title)?;
    let mut tables = Tables {
        fences: &mut [9; 97],
        tails: &mut [9; 641],
        heads: &mut [9; 641],
        lengths: &mut [9; 641],
        holds: &mut [9; 641],
        speeds: &mut [9; 61_441],
    };
    let answer = load(text, &mut tables);
    print_answer(rt, answer)?;
    match answer {
        Ok(counts) => {
            print_town(rt, counts.intervals, counts.arcs, &tables)?;
        }
        Err(_) => {
            print!(rt; "first entries")?;
            print_across(rt, 0, 0, 0, &tables)?;
        }
    }
    print_names(rt, text)
}

fn print_file(rt: &HostRuntime, path: &str) -> io::Result<()> {
    let title = path.as_bytes();
    let mut file = match File::open(rt, path) {
        Ok(file) => file,
        Err(error) => {
            fail(&mut rt.stderr(), title, &error);
            return Ok(());
        }
    };
    let mut buffer = [0u8; ROOM];
    let Some(length) = read_all(&mut file, &mut rt.stderr(), title, &mut buffer) else {
        return Ok(());
    };
    print_block(rt, title, &buffer[..length])
}

fn print_arguments(rt: &HostRuntime) -> io::Result<()> {
    for path in env::args(rt)?.skip(1) {
        print_file(rt, &path)?;
    }
    Ok(())
}

fn main(rt: HostRuntime) -> io::Result<()> {
    print_arguments(&rt)?;
    parts::print_all_parts(&rt)
}
