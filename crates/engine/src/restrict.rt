// RESTRICT: the rows of a table whose tests are true, fetched once each.
ghost use Rattle.std.specs.Prelude.{◌≡◌, ◌+◌, ◌*◌, ◌%◌, ◌^◌, ◌<◌, ◌≤◌, length, filter, IfOk};
ghost use Rattle.std.proofs.Math.Seq.{paste};
ghost use Rattle.sources.specs.Heads.{rows_in};
ghost use Rattle.terms.specs.Tables.{rows_of, columns_of};
ghost use Rattle.meaning.specs.Rows.{cell};
ghost use Rattle.meaning.specs.Queries.{test_true, tests_true};
ghost use Rattle.meaning.specs.Reading.{readable, first_unreadable};
ghost use Rattle.engine.specs.Rows.{values};
ghost use Rattle.engine.specs.Restricting.{restrict_answer, fetched_until};

use crate::layout::Extent;
use crate::rows::cell_at;
use queries::Test;
use sources::Source;
use terms::{Cell, Fault, MAX_COLUMNS, WorkCell};

// A fetched row as work memory holds it.
fn widened(row: &[Cell; MAX_COLUMNS]) -> [WorkCell; MAX_COLUMNS]
    ensures value { values result ≡ row.now }
{
    row.map(WorkCell::from)
}

fn test_true(test: Test, row: &[WorkCell]) -> bool
    ensures value { result ≡ test_true test (values row.now) }
{
    test.comparison
        .holds(cell_at(row, test.column), Some(i64::from(test.constant)))
}

fn tests_true(tests: &[Test], row: &[WorkCell]) -> bool
    ensures value { result ≡ tests_true tests.now (values row.now) }
{
    tests.iter().all(|test| test_true(*test, row))
}

// Writes the row's first cells from a place on. The width is a plain number, as an extent's is: that it is six at most is in no
// type.
fn store(row: &[WorkCell; MAX_COLUMNS], width: usize, cells: &mut [WorkCell], at: usize)
    requires width { width ≤ 6 }
    requires within { at + width ≤ length cells.old }
    ensures cells { values cells.new ≡ paste (values cells.old) at (values row.now) width }
{
    cells[at..at + width].copy_from_slice(&row[..width]);
}

// Fetches each row of a block's table once and keeps those whose tests are true, from the first cell on. An unreadable row
// stops it, and is told with the block. The cells are lent beside their extent, because they are overwritten in place.
pub(crate) fn restrict<S: Source>(
    source: &mut S,
    block: u8,
    table: u8,
    tests: &[Test],
    extent: Extent,
    cells: &mut [WorkCell],
) -> Result<usize, Fault>
    requires meter { S.reads source.old < 2 ^ 64 }
    requires count { extent.rows ≡ length (rows_of (S.tables source.old table)) }
    requires width { extent.width ≡ columns_of (S.tables source.old table) }
    requires room { extent.rows * extent.width ≤ length cells.old }
    ensures tables { S.tables source.new ≡ S.tables source.old }
    ensures meter { S.reads source.new ≡ (S.reads source.old + fetched_until (first_unreadable (rows_of (S.tables source.old table))) extent.rows) % 2 ^ 64 }
    ensures answer { result ≡ restrict_answer block table (filter (tests_true tests.now) (readable (rows_of (S.tables source.old table)))) (first_unreadable (rows_of (S.tables source.old table))) }
    ensures few { IfOk result (λ n. n ≤ extent.rows) }
    ensures rows { IfOk result (λ n. rows_in n extent.width (values cells.new) ≡ filter (tests_true tests.now) (readable (rows_of (S.tables source.old table)))) }
{
    let mut fetched = [None; MAX_COLUMNS];
    // How many rows are kept, and so where the next one goes. A fetch wants the row's number.
    let mut kept: usize = 0;
    for i in 0..extent.rows {
        Fault::in_block(source.fetch(table, i, &mut fetched), block)?;
        let row = widened(&fetched);
        if tests_true(tests, &row) {
            store(&row, extent.width, cells, kept * extent.width);
            kept += 1;
        }
    }
    Ok(kept)
}
