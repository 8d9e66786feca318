// How comparisons and refusals print.
ghost use Rattle.std.specs.Prelude.{Some};
ghost use Rattle.terms.specs.Printed.{comparison_sign, refusal_meaning};

use crate::comparisons::Comparison;
use crate::refusals::Refusal;
use std::error::Error;
use std::fmt;

// The comparison's sign in SQL.
impl fmt::Display for Comparison {
    ghost output = { λ c. Some (comparison_sign c) };

    fn fmt<W: fmt::Write>(&self, f: &mut fmt::Formatter<W>) -> fmt::Result {
        match self {
            Comparison::Equal => f.write_str("="),
            Comparison::NotEqual => f.write_str("<>"),
            Comparison::Less => f.write_str("<"),
            Comparison::LessOrEqual => f.write_str("<="),
            Comparison::Greater => f.write_str(">"),
            Comparison::GreaterOrEqual => f.write_str(">="),
        }
    }
}

// What the refusal means; docs/REFUSALS.md says when each comes.
impl fmt::Display for Refusal {
    ghost output = { λ r. Some (refusal_meaning r) };

    fn fmt<W: fmt::Write>(&self, f: &mut fmt::Formatter<W>) -> fmt::Result {
        match self {
            Refusal::OutOfRange => f.write_str("a number of the entry is out of range"),
            Refusal::OutOfTurn => f.write_str("the entry may not stand here"),
            Refusal::OverLimit => f.write_str("the entry is one more than the limit allows"),
            Refusal::AllByEquality => f.write_str("ALL compares by = or <>"),
            Refusal::NothingSelected => f.write_str("no output column is selected"),
            Refusal::SheetUnfinished => f.write_str("the query is not finished"),
            Refusal::PlanEmpty => f.write_str("there is no plan to run"),
            Refusal::BufferShort => f.write_str("the buffer is too short"),
            Refusal::WorkShort => f.write_str("there is too little work memory"),
            Refusal::ImageTooLong => f.write_str("the image has more than 65,536 bytes"),
            Refusal::RecordPastEnd => f.write_str("a record goes on past the end of the image"),
            Refusal::UnknownKind => f.write_str("a record is neither a table nor a remark"),
            Refusal::BadTableHead => f.write_str(
                "a table's number or column count is out of range, or missing",
            ),
            Refusal::BadRowCount => f.write_str(
                "a table's last row is broken, or it has more than 1,024 rows",
            ),
            Refusal::BadRow => f.write_str("a row has a wrong mark, or bytes in an absent cell"),
            Refusal::NoSuchTable => f.write_str("the source has no such table"),
            Refusal::NoSuchColumn => f.write_str("the table has no such column"),
            Refusal::RowUnreadable => f.write_str("the row is unreadable"),
            Refusal::NoSuchRow => f.write_str("there is no such row"),
        }
    }
}

impl Error for Refusal {}
