// Entries: a query is entered on a sheet step by step, each step with the numbers that the observer gives.
use crate::nests::Nest;
use crate::parts::{Link, Test};

// An entry as it was given: any of its numbers may be out of range, so what will be an enum in a `Part` is a number here.
// Those that an entry does not use are not looked at.
#[derive(Clone, Copy, PartialEq, Eq, Debug)]
pub enum Entry {
    Open {
        table: u8,
    },
    Test {
        column: u8,
        comparison: u8,
        constant: i64,
    },
    Link {
        column: u8,
        comparison: u8,
        parent: u8,
    },
    Nest {
        form: u8,
        table: u8,
        operand: u8,
        comparison: u8,
        code: u8,
        inner: u8,
    },
    Select {
        column: u8,
    },
    Finish,
}

// An entry whose numbers are all in range: what it brings to the query.
#[derive(Clone, Copy, PartialEq, Eq, Debug)]
pub enum Part {
    Outermost { table: u8 },
    Tested { test: Test },
    Linked { link: Link },
    Nested { nest: Nest, table: u8 },
    Selected { column: u8 },
    Finished,
}
