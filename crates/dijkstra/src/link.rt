// The arcs of each junction, linked in rising order.
ghost use Rattle.std.specs.Prelude.{◌≡◌, ℕ, ◌≤◌, ◌<◌, length, get_or, replicate};
ghost use Rattle.model.specs.Labels.{no_arc};
ghost use Rattle.model.specs.Limits.{max_arcs, max_junctions};
ghost use Rattle.dijkstra.specs.Code.Linked.{Linked};

use model::limit::{MAX_ARCS, MAX_JUNCTIONS};

// The first arc that leaves each junction, and after each arc the next with the same tail; the mark where there is none.
#[derive(Clone, Copy)]
pub(crate) struct Links {
    pub(crate) first: [u16; MAX_JUNCTIONS],
    pub(crate) next: [u16; MAX_ARCS],
}

// Links the arcs, where none is linked yet. The links are lent: handed over they would be copied, for which an archive for C needs memcpy.
pub(crate) fn link_arcs(tails: &[u16], links: &mut Links)
    requires tails_len_bound { length tails.now ≤ max_arcs }
    requires by_index { (a : ℕ) → a < length tails.now → get_or tails.now a 0 < max_junctions }
    requires none_first { links.old.first ≡ replicate max_junctions no_arc }
    requires none_next { links.old.next ≡ replicate max_arcs no_arc }
    ensures { Linked tails.now links.new.first links.new.next }
{
    for a in (0..tails.len()).rev() {
        let tail = tails[a] as usize;
        links.next[a] = links.first[tail];
        links.first[tail] = a as u16;
    }
}
