// What a sheet holds. It has no invariant of its own; `Sheet` has.
use crate::blocks::SheetQuery;

mod entering;

#[derive(Clone, Copy)]
pub(crate) enum Draft {
    // Block 0 is not open yet.
    Fresh,
    Open(SheetQuery),
    // A finish was taken: nothing more is entered.
    Ended(SheetQuery),
}
