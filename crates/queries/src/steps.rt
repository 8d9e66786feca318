// The steps of a flat plan. A plan works on temporaries: for each block the rows that it keeps, and for each inner block
// its tuples with their answers. A step names the temporaries that it reads and writes by the number of their block.
use crate::aggregates::Aggregate;
use terms::Comparison;

// What FILTER compares with a tuple's answer: a column of the parent, or the number 0. It is no Option, for 0 is no column
// that is missing.
#[derive(Clone, Copy, PartialEq, Eq, Debug)]
pub enum Operand {
    Column { column: u8 },
    Zero,
}

#[derive(Clone, Copy, PartialEq, Eq, Debug)]
pub enum Step {
    // Fetches every row of the block's table, and keeps in `rows` those whose tests are true.
    Restrict {
        block: u8,
        rows: u8,
    },
    // Puts into `tuples` the distinct tuples of the cells that the block's join conditions name in the parent's `rows`.
    Project {
        block: u8,
        rows: u8,
        tuples: u8,
    },
    // Joins each of `tuples` with those of `rows` whose join conditions are true, and puts the aggregate beside it.
    Group {
        block: u8,
        rows: u8,
        tuples: u8,
        aggregate: Aggregate,
    },
    // Keeps those of the parent's `rows` whose operand compares true with the answer of their own tuple.
    Filter {
        block: u8,
        rows: u8,
        tuples: u8,
        operand: Operand,
        comparison: Comparison,
    },
    // Writes the output columns of `rows`.
    Output {
        rows: u8,
    },
}
