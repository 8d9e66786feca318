// The card as a source. It fetches as the bench does but for unreadable rows; a fetch that is the trait's own would ask more of
// every source.
ghost use Rattle.std.specs.Prelude.{◌≡◌};
ghost use Rattle.std.specs.Option.{option_map};
ghost use Rattle.cards.specs.CardTables.{card_tables, raw_table};
ghost use Rattle.cards.specs.CardFormed.{card_formed};

use crate::card::Card;
use sources::{Shape, Source};
use terms::{Cell, Fault, MAX_COLUMNS, Refusal};

impl<'a> Source for Card<'a> {
    ghost tables = { λ c. card_tables c.image.now };

    ghost reads = { λ c. c.meter };

    ghost formed = { λ c. card_formed c.image.now c.passed };

    fn shape(&self, table: u8) -> Option<Shape> {
        let found = self.find_table(table)?;
        Some(Shape {
            columns: found.columns,
            rows: found.row_count(),
        })
    }

    fn fetch(
        &mut self,
        table: u8,
        row: usize,
        place: &mut [Cell; MAX_COLUMNS],
    ) -> Result<(), Fault> {
        *place = [None; MAX_COLUMNS];
        let no_row = Fault::of_row(Refusal::NoSuchRow, table, row);
        let found = self.find_row(table, row).ok_or(no_row)?;
        self.meter = self.meter.wrapping_add(1);
        let unreadable = Fault::of_row(Refusal::RowUnreadable, table, row);
        *place = found.read().ok_or(unreadable)?;
        Ok(())
    }

    fn meter(&self) -> u64 {
        self.meter
    }
}

impl<'a> Card<'a> {
    // The record that counts for a table's number, head and payload, as it stands in the image.
    pub fn record_of(&self, table: u8) -> Option<&'a [u8]>
        ensures { option_map (λ bytes. bytes.now) result ≡ option_map (λ t. t.whole) (raw_table self.now.image.now table) }
    {
        let found = self.find_table(table)?;
        Some(found.whole)
    }
}
