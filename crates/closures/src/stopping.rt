// The rows of a flat table that stop the asker. The rules are asked of the whole list before; what is lent on from here knows no asker.
ghost use Rattle.std.specs.Prelude.{◌≡◌, ◌≤◌, length, take};
ghost use Rattle.model.specs.Closures.{max_closures, closure_of, closures_of};
ghost use Rattle.model.specs.Parties.{stops?, closures_for};

use model::closure::MAX_CLOSURES;
use model::party::BOTH;

fn stops(asker: u32, row: [u32; 4]) -> bool
    ensures { result ≡ stops? asker (closure_of row) }
{
    row[3] == BOTH || row[3] == asker
}

// Puts the rows that stop the asker, in their order, at a table's start and answers how many they are. Of a list that is too long the first 64 are looked at: it
// was refused before. It answers no part of the table: of a table that is lent on so, no promise can say what it holds in the end.
pub fn put_stopping(asker: u32, closures: &[[u32; 4]], rows: &mut [[u32; 4]; MAX_CLOSURES]) -> usize
    ensures few { result ≤ max_closures }
    ensures rows { length closures.now ≤ max_closures → closures_of (take result rows.new) ≡ closures_for asker (closures_of closures.now) }
{
    let mut count = 0;
    for row in &closures[..closures.len().min(MAX_CLOSURES)] {
        if stops(asker, *row) {
            rows[count] = *row;
            count += 1;
        }
    }
    count
}
