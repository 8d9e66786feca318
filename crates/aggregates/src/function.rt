// What any aggregate function does.
ghost use Rattle.std.specs.Prelude.{◌≡◌};
ghost use Rattle.meaning.specs.Aggregates.{Meaning};

use terms::Cell;

// Makes one answer out of cells that come one after the other. A recorder's own function, which its program fixes, is its
// house aggregate; whatever keeps this trait's promises may be one.
pub trait AggregateFunction {
    // The running total, of the function's own make.
    type Total: Drop;

    // What the function means: its start, its step and its answer, with the law that an absent cell changes nothing.
    ghost meaning: { Meaning Self.Total };

    // The total of no cells.
    fn start() -> Self::Total
        ensures { result ≡ meaning.start };

    // The total after one more cell.
    fn step(total: Self::Total, cell: Cell) -> Self::Total
        ensures { result ≡ meaning.step total cell };

    // What a total answers: absent, or a number.
    fn answer(total: &Self::Total) -> Option<i64>
        ensures { result ≡ meaning.answer total.now };
}
