// Tables as text, in aligned columns.
use sources::Source;
use std::alloc::{AllocError, Global};
use std::fmt;
use terms::{Cell, Fault, MAX_COLUMNS};

// The cells of a row, and absent ones after them.
pub(crate) type Row = [Cell; MAX_COLUMNS];

// A list, since a Display that writes a C and then a number would have to pad by itself: `pad` takes one text.
const HEADINGS: [&str; MAX_COLUMNS] = ["C1", "C2", "C3", "C4", "C5", "C6"];

// A table with each row fetched once: None for one that is unreadable. Each column has a width to be shown in.
#[derive(Drop)]
pub(crate) struct FetchedTable {
    number: u8,
    rows: Vec<Option<Row>>,
    widths: Vec<usize>,
}

impl FetchedTable {
    // The table with a number; None where there is none.
    // Not over PlainTable: this one keeps an unreadable row, to show it, and fetches the rows behind it.
    pub(crate) fn fetch<S: Source>(
        heap: Global,
        source: &mut S,
        number: u8,
    ) -> Result<Option<FetchedTable>, AllocError> {
        let Some(shape) = source.shape(number) else {
            return Ok(None);
        };
        let rows: Vec<Option<Row>> = (0..shape.rows)
            .map(|row| fetch_row(source, number, row).ok())
            .collect(heap)?;
        let widths = column_widths(heap, shape.columns, &rows)?;
        Ok(Some(FetchedTable {
            number,
            rows,
            widths,
        }))
    }
}

// The cells of a row of a table.
pub(crate) fn fetch_row<S: Source>(source: &mut S, table: u8, row: usize) -> Result<Row, Fault> {
    let mut cells = [None; MAX_COLUMNS];
    source.fetch(table, row, &mut cells)?;
    Ok(cells)
}

// How wide each column is shown: as its widest cell, and at least as its heading.
fn column_widths(
    heap: Global,
    columns: u8,
    rows: &[Option<Row>],
) -> Result<Vec<usize>, AllocError> {
    let mut widths = vec![in heap; 2; columns as usize]?;
    for cells in rows.iter().flatten() {
        widen(heap, &mut widths, cells)?;
    }
    Ok(widths)
}

fn widen(heap: Global, widths: &mut [usize], cells: &Row) -> Result<(), AllocError> {
    for (width, cell) in widths.iter_mut().zip(cells) {
        let shown = ShownCell(*cell).to_string(heap)?;
        *width = (*width).max(shown.len());
    }
    Ok(())
}

impl fmt::Display for FetchedTable {
    fn fmt<W: fmt::Write>(&self, f: &mut fmt::Formatter<W>) -> fmt::Result {
        let number = self.number;
        let columns = self.widths.len();
        let rows = self.rows.len();
        write!(f, "\nTable {number}: {columns} columns, {rows} rows\n")?;
        write_headings(f, &self.widths)?;
        for row in &self.rows {
            write_row(f, row, &self.widths)?;
        }
        Ok(())
    }
}

fn write_headings<W: fmt::Write>(f: &mut fmt::Formatter<W>, widths: &[usize]) -> fmt::Result {
    for (heading, &width) in HEADINGS.iter().zip(widths) {
        write!(f, "  {heading:>width$}")?;
    }
    f.write_str("\n")
}

fn write_row<W: fmt::Write>(
    f: &mut fmt::Formatter<W>,
    row: &Option<Row>,
    widths: &[usize],
) -> fmt::Result {
    let Some(cells) = row else {
        return f.write_str("  unreadable\n");
    };
    for (cell, &width) in cells.iter().zip(widths) {
        let shown = ShownCell(*cell);
        write!(f, "  {shown:>width$}")?;
    }
    f.write_str("\n")
}

// A cell as a table shows it.
#[derive(Clone, Copy)]
struct ShownCell(Cell);

impl fmt::Display for ShownCell {
    fn fmt<W: fmt::Write>(&self, f: &mut fmt::Formatter<W>) -> fmt::Result {
        match self.0 {
            Some(number) => fmt::Display::fmt(&number, f),
            None => f.pad("-"),
        }
    }
}
