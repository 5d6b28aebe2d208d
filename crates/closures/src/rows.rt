// The closures as a flat table, which can be lent to loops.
ghost use Rattle.std.specs.Prelude.{◌≡◌, min, length, take};
ghost use Rattle.closures.specs.Rows.{row_count_lem, FirstOf, StandFor};

use model::closure::Closure;

// One row more than a question may bring: a list that is too long is refused for that alone, whatever its records are.
pub const ROWS: usize = 65;

// The one function that reads a slice of records: it puts them into a table's first rows and answers how many they are. It answers no part of the table: of a
// table that is lent on so, no promise can say what it holds in the end.
pub fn read_closures(closures: &[Closure], rows: &mut [[u32; 4]; ROWS]) -> usize
    ensures count { result ≡ min row_count_lem (length closures.now) }
    ensures rows { FirstOf closures.now (take result rows.new) }
    ensures stand { StandFor closures.now (take result rows.new) }
{
    let count = closures.len().min(ROWS);
    for (i, closure) in closures[..count].iter().enumerate() {
        rows[i] = [closure.arc, closure.first, closure.end, closure.party];
    }
    count
}
