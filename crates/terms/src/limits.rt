// The limits of tables.
ghost use Rattle.std.specs.Prelude.{◌≡◌};
ghost use Rattle.terms.specs.Tables.{is_table, is_column};

// A table has at most so many columns, and a fetched row has so many cells.
pub const MAX_COLUMNS: usize = 6;

// A table has at most so many rows.
pub const MAX_ROWS: usize = 1_024;

// Whether a table may have this number. Each range has a function of its own: one over any range would be `contains`.
pub fn is_table(number: u8) -> bool
    ensures { result ≡ is_table number }
{
    (1..=16).contains(&number)
}

// Whether a column may have this number, which is also whether a table may have so many columns.
pub fn is_column(number: u8) -> bool
    ensures { result ≡ is_column number }
{
    (1..=6).contains(&number)
}
