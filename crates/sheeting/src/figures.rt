// The figures of each junction: how many departures reach it, and the least, the greatest and the sum of their journeys.
ghost use Rattle.std.specs.Prelude.{◌≡◌, ℕ, ◌+◌, ◌*◌, ◌<◌, length};
ghost use Rattle.sheeting.specs.Code.Columns.{ColumnKept, column_ticks, column_figures_lem, figures_in, in_turn, with_journey_lem};

use crate::sheet::FIGURES;
use model::label::UNREACHED;

// A journey for each departure that reaches the junction.
#[derive(Clone, Copy, Debug, Default, PartialEq, Eq)]
struct Figures {
    count: u32,
    least: u32,
    greatest: u32,
    sum: u32,
}

impl Figures {
    fn with_journey(self, ticks: u32) -> Figures
        requires count_bound { self.count < 96 }
        requires ticks_bound { self.sum + ticks < 4294967296 }
        ensures { result ≡ with_journey_lem self ticks }
    {
        Figures {
            count: self.count + 1,
            // A first journey is the least, whatever stands there.
            least: if self.count == 0 {
                ticks
            } else {
                ticks.min(self.least)
            },
            greatest: ticks.max(self.greatest),
            sum: self.sum + ticks,
        }
    }
}

impl From<Figures> for [u32; FIGURES] {
    ghost from_gives = { λ figures four. four ≡ in_turn figures };

    fn from(figures: Figures) -> [u32; FIGURES] {
        [figures.count, figures.least, figures.greatest, figures.sum]
    }
}

// The last departure comes first, since a list's figures are those of its rest with its head.
fn column_figures(labels: &[u32], departures: &[u32], junctions: usize, junction: usize) -> Figures
    requires { ColumnKept labels.now departures.now junctions junction }
    ensures { result ≡ figures_in (column_ticks labels.now junctions junction departures.now) }
{
    let mut figures = Figures::default();
    for k in (0..departures.len()).rev() {
        let label = labels[k * junctions + junction];
        if label != UNREACHED {
            figures = figures.with_journey(label - departures[k]);
        }
    }
    figures
}

// Writes the figures of every junction, from a table of rows.
pub(crate) fn write_figures(
    labels: &[u32],
    departures: &[u32],
    junctions: usize,
    figures: &mut [u32],
)
    requires by_index { (j : ℕ) → j < junctions → ColumnKept labels.now departures.now junctions j }
    requires figures_len { length figures.old ≡ 4 * junctions }
    ensures { figures.new ≡ column_figures_lem labels.now departures.now junctions 0 junctions }
{
    // A proof does not know what stands in a table after its `chunks_mut`: each junction's part is lent by its place.
    for j in 0..junctions {
        let at = FIGURES * j;
        let four = <[u32; FIGURES]>::from(column_figures(labels, departures, junctions, j));
        figures[at..at + FIGURES].copy_from_slice(&four);
    }
}
