// Finding tables and rows in a card's image, whose records all passed the load: no record is checked again.
ghost use Rattle.std.specs.Prelude.{◌≡◌, IfSome};
ghost use Rattle.std.specs.Option.{option_map};
ghost use Rattle.terms.specs.Tables.{row_at};
ghost use Rattle.cards.specs.CardTables.{table_in, table_for, raw_table, card_tables};
ghost use Rattle.cards.specs.CardFormed.{Sound};
ghost use Rattle.cards.specs.Views.{as_raw, as_row};

use crate::card::Card;
use crate::format::{RecordKind, TableBytes, row_width};
use crate::records::{Record, Records};
use crate::rows::RowBytes;

impl<'a> Record<'a> {
    // The table in the record, if it has the number.
    fn table(self, number: u8) -> Option<TableBytes<'a>>
        ensures { option_map as_raw result ≡ table_for (table_in self.entry.bytes.now self.entry.kind self.entry.payload.now) number }
    {
        match (RecordKind::try_from(self.kind), self.payload) {
            (Ok(RecordKind::Table), [n, columns, bytes @ ..]) if *n == number => Some(TableBytes {
                whole: self.bytes,
                number,
                columns: *columns,
                bytes,
            }),
            _ => None,
        }
    }
}

impl<'a> Card<'a> {
    // The table that counts for a number.
    pub(crate) fn find_table(&self, number: u8) -> Option<TableBytes<'a>>
        ensures table { option_map as_raw result ≡ raw_table self.now.image.now number }
        ensures sound { IfSome result (λ t. Sound number (as_raw t)) }
    {
        Records::of(self.image).find_map(|record| record.table(number))
    }

    // The columns and the bytes of one row, where the image has that row.
    pub(crate) fn find_row(&self, number: u8, row: usize) -> Option<RowBytes<'a>>
        ensures { option_map as_row result ≡ row_at (card_tables self.now.image.now number) row }
    {
        let table = self.find_table(number)?;
        if row >= table.row_count() {
            return None;
        }
        let width = row_width(table.columns);
        let start = row * width;
        Some(RowBytes {
            columns: table.columns,
            bytes: &table.bytes[start..start + width],
        })
    }
}
