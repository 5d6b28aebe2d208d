// Every refusal of the operations, by name and number, and its code for a caller from C.
ghost use Rattle.std.specs.Prelude.{◌≡◌, ◌+◌};
ghost use Rattle.refusals.specs.Refusals.{number_of, refusal_base};

#[derive(Clone, Copy, Debug, PartialEq, Eq)]
pub enum Refusal {
    // The network's rules.
    JunctionCount = 1,
    IntervalCount = 2,
    ArcCount = 3,
    TableLength = 4,
    Fence = 5,
    ArcEnds = 6,
    Length = 7,
    Speed = 8,
    Hold = 32,
    // The closures', and who asks.
    ClosureCount = 36,
    Closure = 37,
    ClosureParty = 38,
    Asker = 39,
    // The question's.
    Source = 9,
    Departure = 10,
    BufferLength = 11,
    Destination = 12,
    Unreached = 13,
    ArcListLength = 14,
    DepartureAfterLast = 15,
    // The town file's.
    TextLength = 20,
    NoLineFeed = 21,
    LineLength = 22,
    UnknownMark = 23,
    MarkOutOfTurn = 24,
    FieldForm = 25,
    FieldValue = 26,
    LineMissing = 27,
    TableTooShort = 28,
    // The converters'.
    FormAlready = 33,
    HoldDropped = 34,
    OutputLength = 35,
    // The sheet's.
    DepartureCount = 30,
    SheetLength = 31,
    // Arc arrival's.
    DepartureInterval = 46,
    // The week store's.
    WeekList = 40,
    VersionOrDay = 41,
    WeekStore = 42,
}

impl Refusal {
    // A refusal's code is this and its number. It is above every tick.
    pub const BASE: u32 = 4_294_900_000;

    // The number by which the operations' users know the refusal.
    pub fn number(self) -> u32
        ensures { result ≡ number_of self }
    {
        self as u32
    }

    // Where a caller from C is answered a tick or a count, a refusal stands above them all.
    pub fn code(self) -> u32
        ensures { result ≡ refusal_base + number_of self }
    {
        Refusal::BASE + self.number()
    }
}
