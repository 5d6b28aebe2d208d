// The tests of the rules that are a network's alone. Each is the definition's own test, of the whole table.
ghost use Rattle.std.specs.Prelude.{◌≡◌, ◌&&◌, ◌≤◌, length};
ghost use Rattle.model.specs.Limits.{max_arcs, max_intervals};
ghost use Rattle.model.specs.Rules.{every, hold_keeps};
ghost use Rattle.model.specs.NetworkRules.{junctions_keep, tables_agree_lem, ends_keep_lem};
ghost use Rattle.checking.specs.Code.Ends.{arc_ends_keep_lem};

use crate::highest::highest;
use crate::rule::from_1_to;
use model::limit::{MAX_HOLD, MAX_JUNCTIONS};
use model::network::Network;

pub(crate) fn junction_count_keeps(junctions: usize) -> bool
    ensures { result ≡ junctions_keep junctions }
{
    from_1_to(MAX_JUNCTIONS, junctions)
}

// The tables of arcs are as long as they should be. The product fits, since the counts are within their limits.
pub(crate) fn tables_agree(network: &Network) -> bool
    requires { (length network.now.fences.now ≤ max_intervals) × (length network.now.tails.now ≤ max_arcs) }
    ensures { result ≡ tables_agree_lem network.now.fences.now network.now.tails.now network.now.heads.now
        network.now.lengths.now network.now.holds.now network.now.speeds.now }
{
    let arcs = network.tails.len();
    (network.heads.len() == arcs)
        & (network.lengths.len() == arcs)
        & (network.holds.len() == arcs)
        & (network.speeds.len() == arcs * network.fences.len())
}

// The arc goes from a junction to another.
fn arc_ends_keep(junctions: u32, tail: u16, head: u16) -> bool
    ensures { result ≡ arc_ends_keep_lem junctions tail head }
{
    ((tail as u32) < junctions) & ((head as u32) < junctions) & (tail != head)
}

// So does every arc. The scan goes on behind one that does not, so that the compiler can take many arcs at once, as it cannot where a `zip` asks for both
// tables' ends. It stays a call of its own: in its caller the count would be one of 64 bits, and half as many arcs be compared at once.
#[inline(never)]
#[tactic(auto, using(crate::proofs::EndsScan::ends_steps))]
pub(crate) fn ends_keep(junctions: u32, tails: &[u16], heads: &[u16]) -> bool
    requires { length heads.now ≡ length tails.now }
    ensures { result ≡ ends_keep_lem junctions tails.now heads.now }
{
    let mut kept = true;
    for a in 0..tails.len() {
        kept &= arc_ends_keep(junctions, tails[a], heads[a]);
    }
    kept
}

#[tactic(auto, using(crate::proofs::HighestScan::highest_within))]
pub(crate) fn holds_keep(holds: &[u16]) -> bool
    ensures { result ≡ every hold_keeps holds.now }
{
    highest(0, holds) as u32 <= MAX_HOLD
}
