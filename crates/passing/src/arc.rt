// The arrival on an arc that is left at its tail's label.
ghost use Rattle.std.specs.Prelude.{◌<◌, length};
ghost use Rattle.model.specs.Ticks.{arrived_at};
ghost use Rattle.closed_arcs.specs.FromLabels.{TimedLabels, OnArc};
ghost use Rattle.closed_arcs.specs.Roads.{network_in};

use crate::tables::Tables;
use closed_arcs::roads::Roads;
use model::tick::Arrival;

impl Tables<'_> {
    // It is none, too, where the head's label is no later than the tail's: driving takes time, so that the arc would lower no label and attains none. An
    // unreached tail's label is the greatest: its arcs are not driven.
    pub(crate) fn arrival_on(&self, roads: &Roads, arc: usize) -> Option<Arrival>
        requires timed_labels { TimedLabels (network_in roads.now) self.now.labels.now self.now.intervals }
        requires arc_in_bounds { arc < length roads.now.network.now.tails.now }
        ensures { OnArc (network_in roads.now) self.now.labels.now arc (arrived_at result) }
    {
        let tail = roads.network.tails[arc] as usize;
        let tick = self.labels[tail];
        if self.labels[roads.network.heads[arc] as usize] <= tick {
            return None;
        }
        roads.drive(arc, tick, self.intervals[tail] as usize)
    }
}
