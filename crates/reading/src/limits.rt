// The limits of what a line's numbers say. The tests are free of branches, since a line is read on after a number outside its limits.
ghost use Rattle.std.specs.Prelude.{◌≡◌, [], ◌∷◌};
ghost use Rattle.townfile.specs.Lines.{town_keeps_lem, junction_keeps_lem};
ghost use Rattle.reading.specs.Code.Kinds.{arc_fits_lem};

use model::limit::{MAX_ARCS, MAX_INTERVALS, MAX_JUNCTIONS, MAX_LENGTH};
use townfile::progress::Progress;

pub(crate) fn town_keeps(junctions: u32, intervals: u32) -> bool
    ensures { result ≡ town_keeps_lem (junctions ∷ intervals ∷ []) }
{
    (0 < junctions)
        & (junctions <= MAX_JUNCTIONS as u32)
        & (0 < intervals)
        & (intervals <= MAX_INTERVALS as u32)
}

pub(crate) fn junction_keeps(progress: Progress, junction: u32) -> bool
    ensures { result ≡ junction_keeps_lem progress junction }
{
    (junction < progress.junctions) & (progress.unnamed <= junction)
}

pub(crate) fn arc_fits(progress: Progress, tail: u32, head: u32, metres: u32) -> bool
    ensures { result ≡ arc_fits_lem progress tail head metres }
{
    let junctions = progress.junctions;
    (tail < junctions)
        & (head < junctions)
        & (tail != head)
        & ((0 < metres) & (metres <= MAX_LENGTH))
        & (progress.arcs < MAX_ARCS as u32)
}
