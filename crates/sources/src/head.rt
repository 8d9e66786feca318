// A table's head: what is said of a table beside its cells.
ghost use Rattle.std.specs.Prelude.{◌≡◌};
ghost use Rattle.sources.specs.Heads.{number_and_columns_in_range, head_verdict};

use terms::{MAX_ROWS, Refusal, is_column, is_table};

// A table over a list of cells: its number and its columns, the index of its first cell, and how many rows it has.
#[derive(Clone, Copy, PartialEq, Eq, Debug)]
pub struct TableHead {
    pub number: u8,
    pub columns: u8,
    pub first: usize,
    pub rows: usize,
}

// Whether a table may have this number and so many columns.
pub fn head_in_range(number: u8, columns: u8) -> bool
    ensures { result ≡ number_and_columns_in_range number columns }
{
    is_table(number) && is_column(columns)
}

impl TableHead {
    // Whether the head may stand over a list of so many cells.
    pub fn check(self, len: usize) -> Result<(), Refusal>
        ensures { result ≡ head_verdict len self }
    {
        if !head_in_range(self.number, self.columns) {
            return Err(Refusal::BadTableHead);
        }
        if self.rows > MAX_ROWS
            || self.first > len
            || self.rows * self.columns as usize > len - self.first
        {
            return Err(Refusal::BadRowCount);
        }
        Ok(())
    }
}
