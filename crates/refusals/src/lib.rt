// The refusals with their numbers. The answer of a call that has nothing else to say is a `Result<(), Refusal>`.
#![tactic(auto)]

ghost use Rattle.std.specs.Prelude.{◌≡◌};
ghost use Rattle.refusals.specs.Refusals.{number};

// Why a call is refused (01: a no). The numbers are 01's and 02's.
#[derive(Clone, Copy, Debug, PartialEq, Eq)]
pub enum Refusal {
    UnknownKind,
    CutFrame,
    Settings,
    ColumnCount,
    WindowSize,
    TapeFull,
    OutOfPlace,
    AlreadyWatched,
    NoFreeRecord,
    NotWatched,
    ShortLoan,
    Torn,
    ShortOutput,
    WindowOrder,
    StampOrder,
    Unmatched,
    DayLength,
    MalformedLine,
    DrillSize,
}

impl Refusal {
    // The number of the refusal.
    pub fn number(self) -> u32
        ensures { result ≡ number self }
    {
        match self {
            Refusal::UnknownKind => 1,
            Refusal::CutFrame => 2,
            Refusal::Settings => 3,
            Refusal::ColumnCount => 4,
            Refusal::WindowSize => 5,
            Refusal::TapeFull => 6,
            Refusal::OutOfPlace => 7,
            Refusal::AlreadyWatched => 8,
            Refusal::NoFreeRecord => 9,
            Refusal::NotWatched => 10,
            Refusal::ShortLoan => 11,
            Refusal::Torn => 12,
            Refusal::ShortOutput => 13,
            Refusal::WindowOrder => 14,
            Refusal::StampOrder => 15,
            Refusal::Unmatched => 16,
            Refusal::DayLength => 17,
            Refusal::MalformedLine => 18,
            Refusal::DrillSize => 19,
        }
    }
}
