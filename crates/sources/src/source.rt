// What any source of tables shows.
ghost use Rattle.std.specs.Prelude.{◌≡◌, ℕ, IfSome};
ghost use Rattle.terms.specs.Tables.{Tables, WellFormed, row_at};
ghost use Rattle.sources.specs.Answers.{shape_of, BoundedShape, fetch_answer, fetched_cells, metered};

use crate::head::TableHead;
use terms::{Cell, Fault, MAX_COLUMNS};

// A table's columns and how many rows it has.
#[derive(Clone, Copy, PartialEq, Eq, Debug)]
pub struct Shape {
    pub columns: u8,
    pub rows: usize,
}

impl From<TableHead> for Shape {
    ghost from_gives = { λ head shape. shape ≡ record { columns = head.columns; rows = head.rows } };

    fn from(head: TableHead) -> Shape {
        Shape {
            columns: head.columns,
            rows: head.rows,
        }
    }
}

// Holds numbered tables and counts the rows that are read. Rows count from 0, columns from 1.
pub trait Source {
    // The tables that it shows, by number.
    ghost tables: { Self → Tables };

    // The read meter.
    ghost reads: { Self → ℕ };

    // The columns and rows of a table; None where no table has the number.
    fn shape(&self, table: u8) -> Option<Shape>
        ensures value { result ≡ shape_of (tables self.now table) }
        ensures bounds { IfSome result BoundedShape };

    // Fills `place` with the cells of a row and absent ones after them. An unreadable row is refused by 33 and counts as
    // read; a row that does not exist is refused by 34 and does not count. Both leave `place` all absent.
    fn fetch(&mut self, table: u8, row: usize, place: &mut [Cell; MAX_COLUMNS]) -> Result<(), Fault>
        ensures answer { result ≡ fetch_answer table row (row_at (tables self.old table) row) }
        ensures cells { place.new ≡ fetched_cells (row_at (tables self.old table) row) }
        ensures meter { reads self.new ≡ metered (row_at (tables self.old table) row) (reads self.old) }
        ensures tables { tables self.new ≡ tables self.old };

    // How many rows were read, modulo 2^64.
    fn meter(&self) -> u64
        ensures { result ≡ reads self.now };

    // Each number from 1 to 16 has no table, or one of 1 to 6 columns and at most 1,024 rows.
    ghost formed: { (s : Self) → WellFormed (tables s) };
}
