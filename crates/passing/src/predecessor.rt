// The predecessors, once the labels stand.
ghost use Rattle.std.specs.Prelude.{◌≡◌, List, ℕ, ◌≤◌, ◌<◌, length, get_or};
ghost use Rattle.model.specs.Limits.{max_arcs, max_junctions};
ghost use Rattle.model.specs.Network.{Network, net_of};
ghost use Rattle.closed_arcs.specs.FromLabels.{TimedLabels};
ghost use Rattle.passing.specs.Code.Passing.{AllUpToDate, LowestAttaining};

use crate::tables::Tables;
use model::label::{NO_ARC, UNREACHED};

impl Tables<'_> {
    // Goes through the arcs by number: the first whose arrival is its head's label, which is reached, is the lowest_numbered.
    pub(crate) fn put_predecessors(&self, heads: &[u16], predecessors: &mut [u16])
        requires heads_len_bound { length heads.now ≤ max_arcs }
        requires labels_len_bound { length self.now.labels.now ≤ max_junctions }
        requires predecessors_len { length predecessors.old ≡ length self.now.labels.now }
        requires by_index { (a : ℕ) → a < length heads.now → get_or heads.now a 0 < length self.now.labels.now }
        ensures lowest { (N : Network) (intervals : List ℕ) → N.heads ≡ heads.now → TimedLabels N self.now.labels.now intervals →
            AllUpToDate N self.now.labels.now self.now.arrivals (length heads.now) →
            LowestAttaining (net_of N) self.now.labels.now (length heads.now) predecessors.new }
        ensures long { length predecessors.new ≡ length predecessors.old }
    {
        predecessors.fill(NO_ARC);
        for (arc, head) in heads.iter().enumerate() {
            let head = *head as usize;
            if predecessors[head] == NO_ARC {
                let arrival = self.arrivals[arc];
                let attains = (arrival != UNREACHED) & (arrival == self.labels[head]);
                if attains {
                    predecessors[head] = arc as u16;
                }
            }
        }
    }
}
