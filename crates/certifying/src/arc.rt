// What each arc asks of the labels at its ends.
ghost use Rattle.std.specs.Prelude.{◌<◌, length, ◌≡◌, Decides};
ghost use Rattle.closed_arcs.specs.FromLabels.{TimedLabels};
ghost use Rattle.closed_arcs.specs.Roads.{network_in};
ghost use Rattle.certifying.specs.Code.Certifying.{meets?, Keeps, AllKeep};

use closed_arcs::roads::Roads;
use model::limit::MAX_JUNCTIONS;

// An arc that is its head's predecessor, the chosen one, arrives at the head's label, and any other not before it.
fn meets(arrival: u32, label: u32, chosen: bool) -> bool
    ensures { result ≡ meets? arrival label chosen }
{
    if chosen {
        arrival == label
    } else {
        label <= arrival
    }
}

// Labels and predecessors that were sent, with the interval of each label beside it.
// `TimedLabels` is a clause of both methods and no ghost field: a ghost field has to be a proposition, and that holds an "or".
#[derive(Clone, Copy)]
pub(crate) struct Sent<'a> {
    pub(crate) roads: &'a Roads<'a>,
    pub(crate) labels: &'a [u32],
    pub(crate) predecessors: &'a [u16],
    pub(crate) intervals: &'a [u8; MAX_JUNCTIONS],
    ghost as_many: { length predecessors.now ≡ length labels.now },
}

impl Sent<'_> {
    // Whether the arc keeps the labels at its ends: it arrives no earlier than its head's label, and exactly then if it is the head's predecessor. Where the
    // head's label is no later than the tail's it is not driven: driving takes time, so that it lowers no label and attains none. An unreached tail's label
    // is the greatest.
    fn arc_keeps(&self, arc: usize) -> bool
        requires timed_labels { TimedLabels (network_in self.now.roads.now) self.now.labels.now self.now.intervals.now }
        requires arc_in_bounds { arc < length self.now.roads.now.network.now.tails.now }
        ensures { Decides result (Keeps (network_in self.now.roads.now) self.now.labels.now self.now.predecessors.now arc) }
    {
        let network = self.roads.network;
        let tail = network.tails[arc] as usize;
        let head = network.heads[arc] as usize;
        let tick = self.labels[tail];
        let label = self.labels[head];
        let chosen = self.predecessors[head] as usize == arc;
        if label <= tick {
            return !chosen;
        }
        match self.roads.drive(arc, tick, self.intervals[tail] as usize) {
            Some(arrival) => meets(arrival.tick.number, label, chosen),
            None => !chosen,
        }
    }

    // Whether every arc does.
    pub(crate) fn arcs_keep(&self) -> bool
        requires { TimedLabels (network_in self.now.roads.now) self.now.labels.now self.now.intervals.now }
        ensures { Decides result (AllKeep (network_in self.now.roads.now) self.now.labels.now self.now.predecessors.now
            (length self.now.roads.now.network.now.tails.now)) }
    {
        (0..self.roads.network.tails.len()).all(|arc| self.arc_keeps(arc))
    }
}
