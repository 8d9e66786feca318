// Rows of work cells that lie one behind the other.
ghost use Rattle.std.specs.Prelude.{◌≡◌, ◌+◌, ◌*◌, ◌≤◌, true, length, take, drop};
ghost use Rattle.terms.specs.Cells.{cell_in_range, every};
ghost use Rattle.sources.specs.Heads.{rows_in};
ghost use Rattle.meaning.specs.Rows.{cell};
ghost use Rattle.engine.specs.Rows.{values};

use terms::{Cell, WorkCell};

// So many rows of so many cells. As an iterator it gives them from the first one on. It is Copy, since GROUP goes over the
// same rows for each tuple, and no `chunks_exact`, since a row may have no cells.
#[derive(Clone, Copy)]
pub(crate) struct Rows<'a> {
    pub(crate) cells: &'a [WorkCell],
    pub(crate) count: usize,
    pub(crate) width: usize,
    ghost within: { count * width ≤ length cells.now },
}

// Rows that came from a table, so that each cell is in the range of a table's cell.
#[derive(Clone, Copy)]
pub(crate) struct TableRows<'a> {
    pub(crate) rows: Rows<'a>,
    ghost ranged: { every (every cell_in_range) (rows_in rows.count rows.width (values rows.cells.now)) ≡ true },
}

// A row that came from a table.
#[derive(Clone, Copy)]
pub(crate) struct TableRow<'a> {
    pub(crate) cells: &'a [WorkCell],
    ghost ranged: { every cell_in_range (values cells.now) ≡ true },
}

impl<'a> Iterator for Rows<'a> {
    ghost use Rattle.std.specs.Iterator.{YieldsFirstBy, item_count};
    ghost use Rattle.engine.specs.Iterators.{row_of, rows_left};

    type Item = &'a [WorkCell];

    ghost next_gives = { YieldsFirstBy row_of rows_left };

    ghost remaining = { item_count rows_left };

    fn next(&mut self) -> Option<&'a [WorkCell]> {
        let count = self.count.checked_sub(1)?;
        let width = self.width;
        let (row, behind) = self.cells.split_at(width);
        *self = Rows {
            cells: behind,
            count,
            width,
        };
        Some(row)
    }
}

impl<'a> Iterator for TableRows<'a> {
    ghost use Rattle.std.specs.Iterator.{YieldsFirstBy, item_count};
    ghost use Rattle.engine.specs.Iterators.{table_row_of, table_rows_left};

    type Item = TableRow<'a>;

    ghost next_gives = { YieldsFirstBy table_row_of table_rows_left };

    ghost remaining = { item_count table_rows_left };

    fn next(&mut self) -> Option<TableRow<'a>> {
        let mut rows = self.rows;
        let cells = rows.next()?;
        *self = TableRows { rows };
        Some(TableRow { cells })
    }
}

impl<'a> TableRow<'a> {
    // The cell of a column, as the table had it.
    pub(crate) fn cell(self, column: u8) -> Cell
        ensures { result ≡ cell column (values self.entry.cells.now) }
    {
        narrowed(cell_at(self.cells, column))
    }
}

// So many cells from a place on.
pub(crate) fn part(cells: &[WorkCell], at: usize, len: usize) -> &[WorkCell]
    requires within { at + len ≤ length cells.now }
    ensures value { values result.now ≡ take len (drop at (values cells.now)) }
    ensures len { length result.now ≡ len }
{
    &cells[at..at + len]
}

// Columns count from 1; past the row's end a cell is absent.
pub(crate) fn cell_at(row: &[WorkCell], column: u8) -> Option<i64>
    ensures value { result ≡ cell column (values row.now) }
{
    row.get(usize::from(column.saturating_sub(1)))
        .and_then(|cell| cell.value)
}

// A work cell that came from a table, as a table's cell again. By `as`: it fits, and a `TryFrom` could fail.
fn narrowed(cell: Option<i64>) -> Cell
    requires ranged { cell_in_range cell ≡ true }
    ensures value { result ≡ cell }
{
    cell.map(|number| number as i32)
}
