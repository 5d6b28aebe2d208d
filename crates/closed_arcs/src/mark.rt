// Where the closures of each arc stand in the list, found once, so that an arc is driven with these at hand, and one that has none with no list.
ghost use Rattle.std.specs.Prelude.{◌≡◌, ◌<◌};
ghost use Rattle.model.specs.Closures.{max_closures, closures_of};
ghost use Rattle.closed_arcs.specs.Marks.{unmarked, extended, Marked};

use model::closure::MAX_CLOSURES;
use model::limit::MAX_ARCS;

// The part with record k added: it ends after k, and where there was none it starts at k.
fn extend(mark: [u8; 2], k: u8) -> [u8; 2]
    requires { k < max_closures }
    ensures { result ≡ extended mark k }
{
    let [start, end] = mark;
    if end == 0 { [k, k + 1] } else { [start, k + 1] }
}

// For each arc the part of the list, its start and its end, from the first record that names it up to the last; both are 0 where none does. Of a list that
// is too long, which every operation has refused, only the first 64 are looked at. The promise holds where the table comes without marks.
pub fn mark_closed(closures: &[[u32; 4]], marks: &mut [[u8; 2]; MAX_ARCS])
    ensures { marks.old ≡ unmarked → Marked (closures_of closures.now) marks.new }
{
    for k in 0..closures.len().min(MAX_CLOSURES) {
        let arc = closures[k][0] as usize;
        if arc < MAX_ARCS {
            marks[arc] = extend(marks[arc], k as u8);
        }
    }
}
