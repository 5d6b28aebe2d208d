// What each junction's label and predecessor must be, whatever the others' are.
ghost use Rattle.std.specs.Prelude.{◌≡◌, true, ◌≤◌, length, Decides};
ghost use Rattle.model.specs.Intervals.{Beside};
ghost use Rattle.model.specs.Limits.{max_arcs};
ghost use Rattle.certifying.specs.Code.Certifying.{Stands, AllStand, Lookable};

use crate::interval::interval_from;
use model::label::{NO_ARC, UNREACHED};
use model::limit::MAX_JUNCTIONS;
use model::tick::Tick;

// The source has the departure and no predecessor. Any other junction is unreached with both marks, or has a tick up to the last and an arc into it.
fn stands(
    junction: usize,
    heads: &[u16],
    source: usize,
    departure: u32,
    label: u32,
    predecessor: u16,
) -> bool
    requires { length heads.now ≤ max_arcs }
    ensures { Decides result (Stands heads.now source departure junction label predecessor) }
{
    if junction == source {
        return (predecessor == NO_ARC) & (label == departure);
    }
    if predecessor == NO_ARC {
        return label == UNREACHED;
    }
    let arc = predecessor as usize;
    label <= Tick::LAST && arc < heads.len() && heads[arc] as usize == junction
}

// Looks at each junction, and puts the interval of its label beside it.
pub(crate) fn junctions_stand(
    fences: &[u32],
    heads: &[u16],
    source: usize,
    departure: u32,
    labels: &[u32],
    predecessors: &[u16],
    intervals: &mut [u8; MAX_JUNCTIONS],
) -> bool
    requires { Lookable fences.now heads.now labels.now predecessors.now }
    ensures stand { Decides result (AllStand heads.now source departure labels.now predecessors.now (length labels.now)) }
    ensures intervals { result ≡ true → Beside fences.now labels.now intervals.new }
{
    let mut interval = 0;
    for (junction, label) in labels.iter().enumerate() {
        if !stands(
            junction,
            heads,
            source,
            departure,
            *label,
            predecessors[junction],
        ) {
            return false;
        }
        if *label != UNREACHED {
            interval = interval_from(fences, interval, *label);
            intervals[junction] = interval as u8;
        }
    }
    true
}
