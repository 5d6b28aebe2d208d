// A pass through the arcs.
ghost use Rattle.std.specs.Prelude.{false, ◌≡◌, ◌+◌, ◌<◌, length};
ghost use Rattle.model.specs.Labels.{offer};
ghost use Rattle.model.specs.Limits.{max_junctions};
ghost use Rattle.model.specs.Network.{net_of};
ghost use Rattle.model.specs.Passes.{pass};
ghost use Rattle.closed_arcs.specs.FromLabels.{TimedLabels};
ghost use Rattle.closed_arcs.specs.Roads.{network_in};
ghost use Rattle.passing.specs.Code.Passing.{LabelsBecome, Current, NoneLowered};

use crate::tables::Tables;
use closed_arcs::roads::Roads;
use model::label::UNREACHED;
use model::tick::Arrival;

impl Tables<'_> {
    // An earlier arrival lowers the head's label, and its interval stands beside it. Whether it does. The arrival is kept for the predecessors.
    fn lower_head(&mut self, roads: &Roads, made: u32, arc: usize) -> bool
        requires timed_labels { TimedLabels (network_in roads.now) self.old.labels.now self.old.intervals }
        requires arc_in_bounds { arc < length roads.now.network.now.tails.now }
        requires made_lt_max_junctions { made < max_junctions }
        requires current_2 { Current (network_in roads.now) self.old.labels.now self.old.arrivals self.old.latest made arc }
        ensures labels { LabelsBecome (network_in roads.now) self.old.labels.now
            (offer (net_of (network_in roads.now)) self.old.labels.now arc self.old.labels.now) self.new.labels.now self.new.intervals result }
        ensures current { Current (network_in roads.now) self.new.labels.now self.new.arrivals self.new.latest made (arc + 1) }
        ensures latest { result ≡ false → self.new.latest ≡ self.old.latest }
        ensures same_reference { self.new.labels.ghost_name ≡ self.old.labels.ghost_name }
    {
        // Neither this pass nor the one before it has lowered the tail's label: an earlier one has been at this arc with that label, and it lowers nothing now.
        if self.latest[roads.network.tails[arc] as usize] < made {
            return false;
        }
        let Some(Arrival { tick, interval }) = self.arrival_on(roads, arc) else {
            self.arrivals[arc] = UNREACHED;
            return false;
        };
        self.arrivals[arc] = tick.number;
        let head = roads.network.heads[arc] as usize;
        if self.labels[head] <= tick.number {
            return false;
        }
        self.labels[head] = tick.number;
        self.intervals[head] = interval as u8;
        self.latest[head] = made + 1;
        true
    }

    // A pass after so many made goes through the arcs by number; a lowered label counts at once for the arcs after it. Whether a label was lowered.
    pub(crate) fn make_pass(&mut self, roads: &Roads, made: u32) -> bool
        requires timed_labels { TimedLabels (network_in roads.now) self.old.labels.now self.old.intervals }
        requires made_lt_max_junctions { made < max_junctions }
        requires current_2 { Current (network_in roads.now) self.old.labels.now self.old.arrivals self.old.latest made 0 }
        requires none_lowered { NoneLowered self.old.latest made }
        ensures labels { LabelsBecome (network_in roads.now) self.old.labels.now
            (pass (net_of (network_in roads.now)) self.old.labels.now) self.new.labels.now self.new.intervals result }
        ensures current { Current (network_in roads.now) self.new.labels.now self.new.arrivals self.new.latest made (length roads.now.network.now.tails.now) }
        ensures latest { result ≡ false → NoneLowered self.new.latest made }
        ensures same_reference { self.new.labels.ghost_name ≡ self.old.labels.ghost_name }
    {
        let mut changed = false;
        for arc in 0..roads.network.tails.len() {
            // As `|=` it would cost each arc that is passed over two instructions more.
            if self.lower_head(roads, made, arc) {
                changed = true;
            }
        }
        changed
    }
}
