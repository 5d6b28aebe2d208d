// Load: a town file into the lent tables of a network.
ghost use Rattle.std.specs.Prelude.{◌≡◌};
ghost use Rattle.townfile.specs.Answers.{reading_of};
ghost use Rattle.townfile.specs.Load.{is_too_short, load_answer, tables_after};
ghost use Rattle.townfile.specs.Lent.{lent_tables, SameTables};

use crate::fill::fill;
use refusals::refusal::Refusal;
use scanning::scan::scan;
use townfile::counts::Counts;
use townfile::fault::Fault;
use townfile::tables::Tables;

// A table has too little room for its own entries. More is good. The tests are joined without a branch.
fn lacks_room(counts: Counts, tables: &Tables<'_>) -> bool
    ensures { result ≡ is_too_short counts (lent_tables tables.now) }
{
    let intervals = counts.intervals as usize;
    let arcs = counts.arcs as usize;
    (tables.fences.len() < intervals)
        | (tables.tails.len() < arcs)
        | (tables.heads.len() < arcs)
        | (tables.lengths.len() < arcs)
        | (tables.holds.len() < arcs)
        | (tables.speeds.len() < arcs * intervals)
}

pub fn load(text: &[u8], tables: &mut Tables<'_>) -> Result<Counts, Fault>
    ensures answer { reading_of result ≡ load_answer text.now (lent_tables tables.old) }
    ensures tables { lent_tables tables.new ≡ tables_after text.now (lent_tables tables.old) }
    ensures same { SameTables tables.old tables.new }
{
    let progress = scan(text)?;
    let counts = Counts {
        junctions: progress.junctions,
        intervals: progress.intervals,
        arcs: progress.arcs,
    };
    if lacks_room(counts, tables) {
        return Err(Fault {
            refusal: Refusal::TableTooShort,
            line: 0,
        });
    }
    fill(text, progress.intervals as usize, progress.held, tables);
    Ok(counts)
}
