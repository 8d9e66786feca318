// GROUP: each tuple's aggregate over the rows that it is joined with.
ghost use Rattle.std.specs.Prelude.{◌≡◌, ◌+◌, ◌*◌, ◌≤◌, map, length};
ghost use Rattle.meaning.specs.Running.{brought, group_answer, joins_true, with_answer};
ghost use Rattle.engine.specs.Rows.{values, groups_in};
ghost use Rattle.engine.specs.Iterators.{table_row_of, table_rows_left};
ghost use Rattle.engine.specs.Grouping.{group_over};

use crate::rows::{TableRow, TableRows, cell_at, part};
use aggregates::AggregateFunction;
use queries::{Aggregate, Function, Link};
use terms::{Cell, WorkCell};

// Whether the join conditions of a row are true of a tuple.
fn joins_true(joins: &[Link], tuple: &[WorkCell], row: &[WorkCell]) -> bool
    requires tuple { length tuple.now ≡ length joins.now }
    ensures value { result ≡ joins_true joins.now (values tuple.now) (values row.now) }
{
    joins.iter().zip(tuple).all(|(join, cell)| {
        join.comparison.holds(cell_at(row, join.column), cell.value)
    })
}

// What a row brings to an aggregate: for COUNT(*) a marker, else the cell of its column.
fn brought(aggregate: Aggregate, row: TableRow) -> Cell
    ensures value { result ≡ brought aggregate (table_row_of row.entry) }
{
    match aggregate {
        Aggregate::CountRows => Some(1),
        Aggregate::Of {
            function: _,
            column,
        } => row.cell(column),
    }
}

// The answer of one tuple.
fn group_one<A: AggregateFunction>(
    joins: &[Link],
    aggregate: Aggregate,
    tuple: &[WorkCell],
    rows: TableRows,
) -> Option<i64>
    requires tuple { length tuple.now ≡ length joins.now }
    ensures value { result ≡ group_over A.AggregateFunction.meaning joins.now aggregate (table_rows_left rows.entry) (values tuple.now) }
{
    let total = rows
        .filter(|row| joins_true(joins, tuple, row.cells))
        .fold(A::start(), |total, row| {
            A::step(total, brought(aggregate, row))
        });
    A::answer(&total)
}

// Writes the answer of each tuple behind it. The keys are lent beside their number and not as Groups, here and in
// group_by: they are overwritten in place, and a type over a `&mut` would be taken apart again at each write.
fn group<A: AggregateFunction>(
    joins: &[Link],
    aggregate: Aggregate,
    rows: TableRows,
    keys: &mut [WorkCell],
    tuples: usize,
)
    requires keys { tuples * (length joins.now + 1) ≤ length keys.old }
    ensures groups { groups_in tuples (length joins.now + 1) (values keys.new) ≡ map (with_answer (group_over A.AggregateFunction.meaning joins.now aggregate (table_rows_left rows.entry))) (groups_in tuples (length joins.now + 1) (values keys.old)) }
{
    let len = joins.len();
    // By index: a proof knows nothing of the keys once chunks_exact_mut has lent them.
    for t in 0..tuples {
        let at = t * (len + 1);
        let answer = group_one::<A>(joins, aggregate, part(keys, at, len), rows);
        keys[at + len] = WorkCell { value: answer };
    }
}

// Writes the answer of each tuple by the aggregate's own function, chosen once for them all. H is the house's. This is a
// match, since the functions are types: a table would name the same five instances, and its index would have to be proved
// in range.
pub(crate) fn group_by<H: AggregateFunction>(
    joins: &[Link],
    aggregate: Aggregate,
    rows: TableRows,
    keys: &mut [WorkCell],
    tuples: usize,
)
    requires keys { tuples * (length joins.now + 1) ≤ length keys.old }
    ensures groups { groups_in tuples (length joins.now + 1) (values keys.new) ≡ map (with_answer (group_answer H.AggregateFunction.meaning joins.now aggregate (table_rows_left rows.entry))) (groups_in tuples (length joins.now + 1) (values keys.old)) }
{
    // COUNT(*) counts the marker that each row brings.
    let function = match aggregate {
        Aggregate::CountRows => Function::Count,
        Aggregate::Of {
            function,
            column: _,
        } => function,
    };
    match function {
        Function::Count => group::<aggregates::Count>(joins, aggregate, rows, keys, tuples),
        Function::Sum => group::<aggregates::Sum>(joins, aggregate, rows, keys, tuples),
        Function::Min => group::<aggregates::Min>(joins, aggregate, rows, keys, tuples),
        Function::Max => group::<aggregates::Max>(joins, aggregate, rows, keys, tuples),
        Function::House => group::<H>(joins, aggregate, rows, keys, tuples),
    }
}
