// The refusals by their numbers.
ghost use Rattle.std.specs.Prelude.{◌≡◌};
ghost use Rattle.terms.specs.Faults.{refusal_number};

// Every refusal of the engine under its number; docs/REFUSALS.md says when each comes.
#[derive(Clone, Copy, PartialEq, Eq, Debug)]
pub enum Refusal {
    OutOfRange = 1,
    OutOfTurn = 2,
    OverLimit = 3,
    AllByEquality = 4,
    NothingSelected = 5,
    SheetUnfinished = 6,
    PlanEmpty = 7,
    BufferShort = 11,
    WorkShort = 12,
    ImageTooLong = 21,
    RecordPastEnd = 22,
    UnknownKind = 23,
    BadTableHead = 24,
    BadRowCount = 25,
    BadRow = 26,
    NoSuchTable = 31,
    NoSuchColumn = 32,
    RowUnreadable = 33,
    NoSuchRow = 34,
}

// By `as`, for each enum anew: no derive makes the `From` that gives an enum's number.
impl From<Refusal> for u8 {
    ghost from_gives = { λ refusal number. number ≡ refusal_number refusal };

    fn from(refusal: Refusal) -> u8 {
        refusal as u8
    }
}
