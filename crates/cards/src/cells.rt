// The cells of a row in an image.
ghost use Rattle.std.specs.Prelude.{◌≡◌, ◌*◌, ◌/◌, ◌%◌, ◌^◌, ◌<◌, ◌≤◌, ◌==◌, ◌||◌, not, length, Some, None, if◌then◌else◌};
ghost use Rattle.std.specs.Int.{w32};
ghost use Rattle.std.proofs.Common.{to_z};
ghost use Rattle.sources.specs.Answers.{six_cells};
ghost use Rattle.cards.specs.Format.{word as word_of, cells_right, cells_of};

use terms::{Cell, MAX_COLUMNS};

// The cells of a readable row: four bytes for each column, under the row's mark.
#[derive(Clone, Copy)]
pub(crate) struct MarkedCells<'a> {
    pub(crate) columns: u8,
    pub(crate) mark: u8,
    pub(crate) bytes: &'a [u8],
    ghost few: { columns ≤ 6 },
    ghost long: { length bytes.now ≡ 4 * columns },
}

impl MarkedCells<'_> {
    // Whether the cells are right under their mark, which has no bit past the columns.
    pub(crate) fn are_right(self) -> bool
        ensures { result ≡ cells_right self.entry.columns self.entry.mark self.entry.bytes.now }
    {
        let (words, _) = self.bytes.as_chunks::<4>();
        let all = words
            .iter()
            .enumerate()
            .all(|(i, word)| cell_right(self.is_absent(i), *word));
        all && self.mark >> self.columns == 0
    }

    // The cells, and absent ones after them.
    pub(crate) fn read(self) -> [Cell; MAX_COLUMNS]
        ensures { result ≡ six_cells (cells_of self.entry.columns self.entry.mark self.entry.bytes.now) }
    {
        let mut cells = [None; MAX_COLUMNS];
        let (words, _) = self.bytes.as_chunks::<4>();
        // By index: of cells that `iter_mut` has lent, a proof knows nothing afterwards.
        for (i, word) in words.iter().enumerate() {
            cells[i] = read_cell(self.is_absent(i), *word);
        }
        cells
    }

    // Whether the mark has the bit of a column.
    fn is_absent(self, i: usize) -> bool
        requires { i < 8 }
        ensures { result ≡ not (self.entry.mark / 2 ^ i % 2 == 0) }
    {
        self.mark >> i & 1 == 1
    }
}

// An absent cell has four bytes 0.
fn cell_right(absent: bool, word: [u8; 4]) -> bool
    ensures { result ≡ (not absent || word_of word == 0) }
{
    !absent || u32::from_le_bytes(word) == 0
}

fn read_cell(absent: bool, word: [u8; 4]) -> Cell
    ensures { result ≡ (if absent then None else Some (to_z w32 (word_of word))) }
{
    (!absent).then(|| i32::from_le_bytes(word))
}
