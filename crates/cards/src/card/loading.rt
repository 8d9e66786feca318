// Loading an image onto a card.
ghost use Rattle.std.specs.Prelude.{◌≡◌, ◌≤◌, [], length, is_ok, if◌then◌else◌};
ghost use Rattle.cards.specs.Format.{row_width, row_right};
ghost use Rattle.cards.specs.Verdicts.{rows_verdict, table_verdict, record_verdict, card_verdict};
ghost use Rattle.cards.specs.Views.{as_record};

use crate::card::Card;
use crate::format::{RecordKind, row_width};
use crate::records::{Record, Records};
use crate::rows::RowBytes;
use sources::head_in_range;
use terms::{Fault, MAX_ROWS, Refusal};

// An image has at most so many bytes.
const MAX_IMAGE: usize = 65_536;

impl<'a> Card<'a> {
    // A card with no table, whose meter stands at 0.
    pub fn empty() -> Self
        ensures image { result.image.now ≡ [] }
        ensures meter { result.meter ≡ 0 }
    {
        Card {
            image: &[],
            meter: 0,
        }
    }

    // Puts another image onto the card; its meter runs on. A refused load leaves the card as it was.
    pub fn load(&mut self, image: &'a [u8]) -> Result<(), Fault>
        ensures answer { result ≡ card_verdict image.now }
        ensures image { self.new.image.now ≡ (if is_ok result then image.now else self.old.image.now) }
        ensures meter { self.new.meter ≡ self.old.meter }
    {
        check_image(image)?;
        *self = Card {
            image,
            meter: self.meter,
        };
        Ok(())
    }
}

fn check_image(image: &[u8]) -> Result<(), Fault>
    ensures { result ≡ card_verdict image.now }
{
    if image.len() > MAX_IMAGE {
        return Err(Fault::at_place(Refusal::ImageTooLong, 0));
    }
    for record in Records::of(image) {
        Fault::placed(record.check(), record.place)?;
    }
    Ok(())
}

impl Record<'_> {
    // Whether an image may have this record.
    fn check(self) -> Result<(), Refusal>
        ensures { result ≡ record_verdict (as_record self.entry) }
    {
        if self.size > self.payload.len() {
            return Err(Refusal::RecordPastEnd);
        }
        match RecordKind::try_from(self.kind)? {
            RecordKind::Table => check_table(self.payload),
            RecordKind::Remark => Ok(()),
        }
    }
}

fn check_table(payload: &[u8]) -> Result<(), Refusal>
    ensures { result ≡ table_verdict payload.now }
{
    let [number, columns, rows @ ..] = payload else {
        return Err(Refusal::BadTableHead);
    };
    if !head_in_range(*number, *columns) {
        return Err(Refusal::BadTableHead);
    }
    check_rows(*columns, rows)
}

// The columns are a plain number, as the image holds it: that there are six at most is in no type but that of a row.
fn check_rows(columns: u8, rows: &[u8]) -> Result<(), Refusal>
    requires { columns ≤ 6 }
    ensures { result ≡ rows_verdict columns rows.now }
{
    let width = row_width(columns);
    if rows.len() % width != 0 || rows.len() / width > MAX_ROWS {
        return Err(Refusal::BadRowCount);
    }
    let right = |bytes: &[u8]| -> bool
        requires few { columns ≤ 6 }
        requires long { length bytes.now ≡ row_width columns }
        ensures { result ≡ row_right columns bytes.now }
    { RowBytes { columns, bytes }.is_right() };
    if rows.chunks_exact(width).all(right) {
        Ok(())
    } else {
        Err(Refusal::BadRow)
    }
}
