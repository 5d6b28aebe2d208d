// What the lines read so far have settled for those that follow.
ghost use Rattle.std.specs.Prelude.{◌≡◌, [], ◌∷◌};
ghost use Rattle.townfile.specs.Lines.{arcs_due, after_town_lem, behind_town, after_fences_lem};
ghost use Rattle.townfile.specs.FirstFault.{start as at_start};

#[derive(Clone, Copy)]
pub struct Progress {
    // Which mark is due.
    pub turn: u32,
    pub junctions: u32,
    pub intervals: u32,
    // The least junction that a JN may still name.
    pub unnamed: u32,
    pub arcs: u32,
    // The file is of the new form, in which an AR line ends with its hold.
    pub held: bool,
}

impl Progress {
    // The turns in their order, as numbers: the definition of the first fault compares and counts them (`in_turn`, `due_after`), so an enum would need a map to them at each.
    // TN is due.
    pub const TOWN_DUE: u32 = 0;

    // FN is due.
    pub const FENCES_DUE: u32 = 1;

    // A JN may follow, or an AR.
    pub const NAMES_DUE: u32 = 2;

    // An AR may follow.
    pub const ARCS_DUE: u32 = 3;

    pub fn start() -> Self
        ensures { result ≡ at_start }
    {
        Self {
            turn: Self::TOWN_DUE,
            junctions: 0,
            intervals: 0,
            unnamed: 0,
            arcs: 0,
            held: false,
        }
    }

    pub fn after_town(self, held: bool, junctions: u32, intervals: u32) -> Self
        ensures { result ≡ after_town_lem self held (junctions ∷ intervals ∷ []) }
    {
        Self {
            turn: Self::FENCES_DUE,
            junctions,
            intervals,
            held,
            ..self
        }
    }

    pub fn after_fences(self) -> Self
        ensures { result ≡ after_fences_lem self }
    {
        Self {
            turn: Self::NAMES_DUE,
            ..self
        }
    }

    // Behind a JN line, with the least junction that may still be named.
    pub fn after_name(self, unnamed: u32) -> Self
        ensures { result ≡ behind_town self self.turn unnamed self.arcs }
    {
        Self { unnamed, ..self }
    }

    // Behind an AR line, with the count of arcs. It alone is changed in place, which takes fewer instructions.
    pub fn after_arc(mut self, arcs: u32) -> Self
        ensures { result ≡ behind_town self arcs_due self.unnamed arcs }
    {
        self.turn = Self::ARCS_DUE;
        self.arcs = arcs;
        self
    }
}
