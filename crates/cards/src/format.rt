// The parts of an image: a record's head and kind, a table's rows.
ghost use Rattle.std.specs.Prelude.{◌≡◌, ℕ, ◌<◌, length, MatchOption};
ghost use Rattle.cards.specs.Format.{row_width};
ghost use Rattle.cards.specs.Heads.{Headed};
ghost use Rattle.cards.specs.Verdicts.{row_count};
ghost use Rattle.cards.specs.Views.{kind_numbered};

use terms::Refusal;

// What a record may hold, under the number that its head gives.
#[derive(Clone, Copy, PartialEq, Eq, Debug)]
pub enum RecordKind {
    Table = 1,
    Remark = 2,
}

// Each enum lists its own cases: no derive makes a `TryFrom`.
impl TryFrom<u16> for RecordKind {
    type Error = Refusal;

    ghost try_from_gives = { λ number kind. kind ≡ kind_numbered number };

    fn try_from(number: u16) -> Result<RecordKind, Refusal> {
        match number {
            1 => Ok(RecordKind::Table),
            2 => Ok(RecordKind::Remark),
            _ => Err(Refusal::UnknownKind),
        }
    }
}

// A record's head, taken off what is left of an image, and what follows it. The kind may be one that is no `RecordKind`.
#[derive(Clone, Copy)]
pub(crate) struct RecordHead<'a> {
    pub(crate) size: usize,
    pub(crate) kind: u16,
    pub(crate) tail: &'a [u8],
}

// A table in an image: its record from the first byte to the last, and in it its number, its columns and its rows.
#[derive(Clone, Copy)]
pub(crate) struct TableBytes<'a> {
    pub(crate) whole: &'a [u8],
    pub(crate) number: u8,
    pub(crate) columns: u8,
    pub(crate) bytes: &'a [u8],
}

impl TableBytes<'_> {
    // How many rows the table has.
    pub(crate) fn row_count(&self) -> usize
        ensures { result ≡ row_count self.now.columns self.now.bytes.now }
    {
        self.bytes.len() / row_width(self.columns)
    }
}

// The head of the next record; None where fewer than four bytes are left.
pub(crate) fn record_head(bytes: &[u8]) -> Option<RecordHead<'_>>
    ensures { MatchOption result (length bytes.now < 4) (λ h. Headed bytes.now h.size h.kind h.tail.now) }
{
    match bytes {
        [l0, l1, k0, k1, tail @ ..] => Some(RecordHead {
            size: u16::from_le_bytes([*l0, *l1]) as usize,
            kind: u16::from_le_bytes([*k0, *k1]),
            tail,
        }),
        _ => None,
    }
}

// The bytes of one row.
pub fn row_width(columns: u8) -> usize
    ensures { result ≡ row_width columns }
{
    1 + 4 * columns as usize
}
