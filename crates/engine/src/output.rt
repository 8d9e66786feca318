// OUTPUT: the output columns of the rows that are left, written into the lent result.
ghost use Rattle.std.specs.Prelude.{◌≡◌, ◌+◌, ◌*◌, ◌≤◌, map, length, drop};
ghost use Rattle.std.proofs.Math.Seq.{paste};
ghost use Rattle.sources.specs.Heads.{rows_in};
ghost use Rattle.meaning.specs.Rows.{cells};
ghost use Rattle.engine.specs.Iterators.{table_row_of, table_rows_left};

use crate::rows::{TableRow, TableRows};
use terms::Cell;

// Writes the output columns of a row from a place on.
fn write_row(outputs: &[u8], row: TableRow, res: &mut [Cell], at: usize)
    requires room { at + length outputs.now ≤ length res.old }
    ensures cells { res.new ≡ paste res.old at (cells outputs.now (table_row_of row.entry)) (length outputs.now) }
{
    // By index: a proof knows nothing of the cells once a zip with iter_mut has written them.
    for (i, column) in outputs.iter().enumerate() {
        res[at + i] = row.cell(*column);
    }
}

// Writes one row for each kept row, from the first cell of the result on, and leaves the rest as it was.
pub(crate) fn output(outputs: &[u8], rows: TableRows, res: &mut [Cell])
    requires room { rows.rows.count * length outputs.now ≤ length res.old }
    ensures rows { rows_in rows.entry.rows.count (length outputs.now) res.new ≡ map (cells outputs.now) (table_rows_left rows.entry) }
    ensures rest { drop (rows.entry.rows.count * length outputs.now) res.new ≡ drop (rows.entry.rows.count * length outputs.now) res.old }
{
    for (i, row) in rows.enumerate() {
        write_row(outputs, row, res, i * outputs.len());
    }
}
