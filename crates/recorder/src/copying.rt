// Tables copied from one card to another, through the cells that they show.
ghost use Rattle.std.specs.Prelude.{◌≤◌};

use crate::tables::fetch_row;
use cards::Card;
use sources::{Shape, Source, TableHead};
use std::alloc::{AllocError, Global};
use terms::{Cell, MAX_COLUMNS, MAX_ROWS, Refusal};
use thiserror::Error;
use writing::{record_of, write_table};

// No record of a table is longer: six bytes before the rows, and then each row with its mark.
const LONGEST_RECORD: usize = 6 + MAX_ROWS * (1 + 4 * MAX_COLUMNS);

// Why a table cannot be copied.
#[derive(Debug, Drop, Error)]
pub(crate) enum CopyError {
    #[error("row {row} of table {table} is unreadable and cannot be written")]
    UnreadableRow { table: u8, row: usize },
    #[error("table {table} cannot be written: refused by {}", u8::from(*.refusal))]
    RefusedTable { table: u8, refusal: Refusal },
    #[error(transparent)]
    Memory(#[from(alloc)] AllocError),
}

// A table's cells, one row behind the other.
#[derive(Drop)]
pub(crate) struct PlainTable {
    pub(crate) shape: Shape,
    pub(crate) cells: Vec<Cell>,
    ghost some_column: { 1 ≤ shape.columns },
}

impl PlainTable {
    // The table with a number; None where there is none.
    // Not over FetchedTable: this one stops at the first unreadable row, and has no widths; what both do is fetch_row.
    pub(crate) fn fetch<S: Source>(
        heap: Global,
        source: &mut S,
        number: u8,
    ) -> Result<Option<PlainTable>, CopyError> {
        let Some(shape) = source.shape(number) else {
            return Ok(None);
        };
        let mut cells = Vec::new(heap);
        for row in 0..shape.rows {
            let fetched = fetch_row(source, number, row).map_err(|_| CopyError::UnreadableRow {
                table: number,
                row,
            })?;
            cells.extend_from_slice(&fetched[..shape.columns as usize])?;
        }
        Ok(Some(PlainTable { shape, cells }))
    }

    // Writes the table under a number behind what the image has already.
    pub(crate) fn push_record(
        &self,
        heap: Global,
        number: u8,
        image: &mut Vec<u8>,
    ) -> Result<(), CopyError> {
        let head = TableHead {
            number,
            columns: self.shape.columns,
            first: 0,
            rows: self.shape.rows,
        };
        // Only write_table knows how long a record is, and it wants the buffer first: so the longest is made, and then cut.
        let mut record = vec![in heap; 0u8; LONGEST_RECORD]?;
        let size = write_table(head, &self.cells, &mut record).map_err(
            |fault| CopyError::RefusedTable {
                table: number,
                refusal: fault.refusal,
            },
        )?;
        record.truncate(size);
        image.extend_from_slice(&record)?;
        Ok(())
    }
}

// The image with every table of a card, each written anew.
pub(crate) fn copied_image(heap: Global, card: &mut Card<'_>) -> Result<Vec<u8>, CopyError> {
    let mut image = Vec::new(heap);
    for number in 1..=16u8 {
        if let Some(table) = PlainTable::fetch(heap, card, number)? {
            table.push_record(heap, number, &mut image)?;
        }
    }
    Ok(image)
}

// Whether two cards have the same record for every number.
pub(crate) fn same_records(one: &Card<'_>, other: &Card<'_>) -> bool {
    (1..=16u8).all(|number| record_of(one, number) == record_of(other, number))
}
