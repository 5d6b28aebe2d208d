// A town in tables of its own, which have room for every town.
ghost use Rattle.std.specs.Prelude.{◌≡◌, IfOk, []};
ghost use Rattle.townfile.specs.Answers.{reading_of};
ghost use Rattle.townfile.specs.Grammar.{network_of};
ghost use Rattle.townfile.specs.Tables.{town_of};
ghost use Rattle.townfile.specs.Load.{roomy_tables, load_answer, tables_after, LongEnough, Stands, network_at};
ghost use Rattle.model.specs.Lent.{lent_network};
ghost use Rattle.loading.specs.Towns.{tables_of};

use crate::load::load;
use model::limit::{MAX_ARCS, MAX_INTERVALS};
use model::network::Network;
use townfile::counts::Counts;
use townfile::fault::Fault;
use townfile::tables::Tables;

const MAX_SPEEDS: usize = MAX_ARCS * MAX_INTERVALS;

#[derive(Drop)]
pub struct Town {
    fences: [u32; MAX_INTERVALS],
    tails: [u16; MAX_ARCS],
    heads: [u16; MAX_ARCS],
    lengths: [u32; MAX_ARCS],
    holds: [u16; MAX_ARCS],
    speeds: [u8; MAX_SPEEDS],
}

impl Town {
    pub fn empty() -> Self
        ensures { tables_of result ≡ roomy_tables }
    {
        Self {
            fences: [0; MAX_INTERVALS],
            tails: [0; MAX_ARCS],
            heads: [0; MAX_ARCS],
            lengths: [0; MAX_ARCS],
            holds: [0; MAX_ARCS],
            speeds: [0; MAX_SPEEDS],
        }
    }

    pub fn load(&mut self, text: &[u8]) -> Result<Counts, Fault>
        ensures answer { reading_of result ≡ load_answer text.now (tables_of self.old) }
        ensures tables { tables_of self.new ≡ tables_after text.now (tables_of self.old) }
        ensures network { IfOk result (λ counts. Stands (network_of (town_of text.now)) counts (tables_of self.new)) }
    {
        load(
            text,
            &mut Tables {
                fences: &mut self.fences,
                tails: &mut self.tails,
                heads: &mut self.heads,
                lengths: &mut self.lengths,
                holds: &mut self.holds,
                speeds: &mut self.speeds,
            },
        )
    }

    // The network that stands at the tables' start.
    pub fn network(&self, counts: Counts) -> Network<'_>
        requires { LongEnough counts (tables_of self.now) }
        ensures { lent_network result [] ≡ network_at counts (tables_of self.now) }
    {
        let intervals = counts.intervals as usize;
        let arcs = counts.arcs as usize;
        Network {
            junctions: counts.junctions as usize,
            fences: &self.fences[..intervals],
            tails: &self.tails[..arcs],
            heads: &self.heads[..arcs],
            lengths: &self.lengths[..arcs],
            holds: &self.holds[..arcs],
            speeds: &self.speeds[..arcs * intervals],
        }
    }
}
