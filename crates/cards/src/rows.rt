// One row of a table in an image.
ghost use Rattle.std.specs.Prelude.{◌≡◌, ◌≤◌, length};
ghost use Rattle.cards.specs.Format.{row_width};

use crate::cells::MarkedCells;
use terms::{Cell, MAX_COLUMNS};

// A row's bytes: a mark, and four for each column.
#[derive(Clone, Copy)]
pub(crate) struct RowBytes<'a> {
    pub(crate) columns: u8,
    pub(crate) bytes: &'a [u8],
    ghost few: { columns ≤ 6 },
    ghost long: { length bytes.now ≡ row_width columns },
}

impl RowBytes<'_> {
    ghost use Rattle.std.specs.Option.{option_map};
    ghost use Rattle.sources.specs.Answers.{six_cells};
    ghost use Rattle.cards.specs.Format.{row_right};
    ghost use Rattle.cards.specs.Views.{as_row};

    // Whether the row may stand: it is unreadable, or its cells are right under its mark.
    pub(crate) fn is_right(self) -> bool
        ensures { result ≡ row_right self.entry.columns self.entry.bytes.now }
    {
        let columns = self.columns;
        match self.bytes {
            [mark, ..] if *mark >= 128 => true,
            [mark, bytes @ ..] => MarkedCells {
                columns,
                mark: *mark,
                bytes,
            }
            .are_right(),
            [] => true,
        }
    }

    // Its cells, and absent ones after them; None where the row is unreadable.
    pub(crate) fn read(self) -> Option<[Cell; MAX_COLUMNS]>
        ensures { result ≡ option_map six_cells (as_row self.entry) }
    {
        let columns = self.columns;
        match self.bytes {
            [mark, bytes @ ..] if *mark < 128 => Some(MarkedCells {
                columns,
                mark: *mark,
                bytes,
            }
            .read()),
            _ => None,
        }
    }
}
