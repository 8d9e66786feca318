// A query entered on a sheet, and the sheet in a form close to SQL.
use crate::joining::write_joined;
use queries::{Entry, Link, Nest, Test};
use sheets::{InnerBlock, Sheet, SheetQuery};
use std::fmt;

// The sites whose quota equals the number of their picks.
pub(crate) const QUOTA_MET: [Entry; 5] = [
    Entry::Open { table: 1 },
    Entry::Select { column: 1 },
    Entry::Nest {
        form: 1,
        table: 2,
        operand: 2,
        comparison: 1,
        code: 1,
        inner: 2,
    },
    Entry::Link {
        column: 1,
        comparison: 1,
        parent: 1,
    },
    Entry::Finish,
];

// A sheet block by block: C1 is a column of the block, P1 one of its parent, T1 a table.
#[derive(Clone, Copy)]
pub(crate) struct Listing<'a>(pub(crate) &'a Sheet);

impl fmt::Display for Listing<'_> {
    fn fmt<W: fmt::Write>(&self, f: &mut fmt::Formatter<W>) -> fmt::Result {
        let Some(query) = self.0.query() else {
            return f.write_str("  no block yet\n");
        };
        write_outermost(f, &query)?;
        for (number, block) in (1..).zip(query.inner.as_slice()) {
            write_inner(f, number, block, nested(&query, number))?;
        }
        Ok(())
    }
}

fn write_outermost<W: fmt::Write>(f: &mut fmt::Formatter<W>, query: &SheetQuery) -> fmt::Result {
    let outputs = query.outputs.as_slice().iter().copied().map(Column);
    f.write_str("  block 0: SELECT ")?;
    write_joined(f, "", ", ", outputs)?;
    let table = query.table;
    write!(f, " FROM T{table}")?;
    write_conditions(f, query.tests.as_slice(), &[], nested(query, 0))
}

fn write_inner<W: fmt::Write>(
    f: &mut fmt::Formatter<W>,
    number: usize,
    block: &InnerBlock,
    nested: Option<NestedTest>,
) -> fmt::Result {
    let item = Item(block.nest);
    let table = block.table;
    write!(f, "  block {number}: SELECT {item} FROM T{table}")?;
    write_conditions(f, block.tests.as_slice(), block.links.as_slice(), nested)
}

// A column of a block.
#[derive(Clone, Copy)]
struct Column(u8);

impl fmt::Display for Column {
    fn fmt<W: fmt::Write>(&self, f: &mut fmt::Formatter<W>) -> fmt::Result {
        let number = self.0;
        write!(f, "C{number}")
    }
}

// What a row of a block is tested for.
#[derive(Clone, Copy)]
enum Condition {
    Test(Test),
    Link(Link),
    Nested(NestedTest),
}

// A nested test over the block with a number.
#[derive(Clone, Copy)]
struct NestedTest {
    nest: Nest,
    block: usize,
}

// The nested test of block `number`, which stands with the block inside it.
fn nested(query: &SheetQuery, number: usize) -> Option<NestedTest> {
    query.inner.as_slice().get(number).map(|inside| NestedTest {
        nest: inside.nest,
        block: number.saturating_add(1),
    })
}

fn write_conditions<W: fmt::Write>(
    f: &mut fmt::Formatter<W>,
    tests: &[Test],
    links: &[Link],
    nested: Option<NestedTest>,
) -> fmt::Result {
    let tests = tests.iter().copied().map(Condition::Test);
    let links = links.iter().copied().map(Condition::Link);
    let nested = nested.map(Condition::Nested);
    write_joined(f, " WHERE ", " AND ", tests.chain(links).chain(nested))?;
    f.write_str("\n")
}

impl fmt::Display for Condition {
    fn fmt<W: fmt::Write>(&self, f: &mut fmt::Formatter<W>) -> fmt::Result {
        match self {
            Condition::Test(test) => write!(f, "{test}"),
            Condition::Link(link) => write!(f, "{link}"),
            Condition::Nested(nested) => write!(f, "{nested}"),
        }
    }
}

impl fmt::Display for NestedTest {
    fn fmt<W: fmt::Write>(&self, f: &mut fmt::Formatter<W>) -> fmt::Result {
        let block = self.block;
        match self.nest {
            Nest::Aggregated {
                operand,
                comparison,
                ..
            } => write!(f, "C{operand} {comparison} (block {block})"),
            Nest::In { operand, .. } => write!(f, "C{operand} IN (block {block})"),
            Nest::Exists => write!(f, "EXISTS (block {block})"),
            Nest::NotExists => write!(f, "NOT EXISTS (block {block})"),
            Nest::Any {
                operand,
                comparison,
                ..
            } => write!(f, "C{operand} {comparison} ANY (block {block})"),
            Nest::All {
                operand,
                comparison,
                ..
            } => write!(f, "C{operand} {comparison} ALL (block {block})"),
        }
    }
}

// What an inner block gives to the nested test that it serves.
#[derive(Clone, Copy)]
struct Item(Nest);

impl fmt::Display for Item {
    fn fmt<W: fmt::Write>(&self, f: &mut fmt::Formatter<W>) -> fmt::Result {
        match self.0 {
            Nest::Aggregated { aggregate, .. } => write!(f, "{aggregate}"),
            Nest::Exists | Nest::NotExists => f.write_str("*"),
            Nest::In { inner, .. } | Nest::Any { inner, .. } | Nest::All { inner, .. } => {
                write!(f, "C{inner}")
            }
        }
    }
}
