// How the parts of a query print: Cn is a column of the block, Pn one of its parent.
ghost use Rattle.std.specs.Prelude.{Some};
ghost use Rattle.queries.specs.Printed.{function_name, aggregate_text, test_text, link_text, entry_text};

use crate::aggregates::{Aggregate, Function};
use crate::entries::Entry;
use crate::parts::{Link, Test};
use std::fmt;

// The function's name in SQL.
impl fmt::Display for Function {
    ghost output = { λ f. Some (function_name f) };

    fn fmt<W: fmt::Write>(&self, f: &mut fmt::Formatter<W>) -> fmt::Result {
        match self {
            Function::Count => f.write_str("COUNT"),
            Function::Sum => f.write_str("SUM"),
            Function::Min => f.write_str("MIN"),
            Function::Max => f.write_str("MAX"),
            Function::House => f.write_str("HOUSE"),
        }
    }
}

impl fmt::Display for Aggregate {
    ghost output = { λ a. Some (aggregate_text a) };

    fn fmt<W: fmt::Write>(&self, f: &mut fmt::Formatter<W>) -> fmt::Result {
        match self {
            Aggregate::CountRows => f.write_str("COUNT(*)"),
            Aggregate::Of { function, column } => write!(f, "{function}(C{column})"),
        }
    }
}

impl fmt::Display for Test {
    ghost output = { λ t. Some (test_text t) };

    fn fmt<W: fmt::Write>(&self, f: &mut fmt::Formatter<W>) -> fmt::Result {
        let Test {
            column,
            comparison,
            constant,
        } = self;
        write!(f, "C{column} {comparison} {constant}")
    }
}

impl fmt::Display for Link {
    ghost output = { λ l. Some (link_text l) };

    fn fmt<W: fmt::Write>(&self, f: &mut fmt::Formatter<W>) -> fmt::Result {
        let Link {
            column,
            comparison,
            parent,
        } = self;
        write!(f, "C{column} {comparison} P{parent}")
    }
}

// The entry's name, and its numbers as they were given.
impl fmt::Display for Entry {
    ghost output = { λ e. Some (entry_text e) };

    fn fmt<W: fmt::Write>(&self, f: &mut fmt::Formatter<W>) -> fmt::Result {
        match self {
            Entry::Open { table } => write!(f, "open {table}"),
            Entry::Test {
                column,
                comparison,
                constant,
            } => write!(f, "test {column} {comparison} {constant}"),
            Entry::Link {
                column,
                comparison,
                parent,
            } => write!(f, "link {column} {comparison} {parent}"),
            Entry::Nest {
                form,
                table,
                operand,
                comparison,
                code,
                inner,
            } => write!(
                f,
                "nest {form} {table} {operand} {comparison} {code} {inner}"
            ),
            Entry::Select { column } => write!(f, "select {column}"),
            Entry::Finish => f.write_str("finish"),
        }
    }
}
