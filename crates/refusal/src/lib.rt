// Why a call is refused: the causes of paper 01's table, and the number by which it names each.
#![tactic(auto)]

ghost use Rattle.std.specs.Prelude.{◌≡◌};
ghost use Rattle.refusal.specs.Numbers.{number_of};

// A cause of refusal, by its number in the table. Where more than one holds, a call's own order says which is answered.
#[derive(Clone, Copy, PartialEq, Eq)]
pub enum Refusal {
    NoSuchParticipant = 1,
    NotAdmitted = 2,
    AdmittedAlready = 3,
    NoSuchRole = 4,
    NoSuchPosition = 5,
    PositionFilled = 6,
    PositionEmpty = 7,
    AmountOutOfRange = 8,
    LetterDays = 9,
    FigureCount = 10,
    OutOfRange = 11,
    MonthOutOfRange = 12,
    FifthCall = 13,
    NotAnnualDays = 14,
    MoreThanHeld = 15,
    TooLittleCover = 16,
    DayOutOfRange = 17,
    TooFewRates = 18,
    ListLengths = 19,
    BatchTooShort = 20,
    PartsMisplaced = 21,
    WrongPart = 22,
    RetiredRole = 23,
    NoDeletionNow = 24,
    UnderDeletion = 25,
}

impl Refusal {
    // The cause's number in the table, 1 to 25.
    pub fn number(self) -> u32
        ensures { result ≡ number_of self }
    {
        self as u32
    }
}
