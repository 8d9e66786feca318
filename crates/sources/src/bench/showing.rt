// The bench as a source. It fetches as the card does but for unreadable rows, of which it has none; a fetch that is the
// trait's own would ask more of every source.
ghost use Rattle.std.specs.Prelude.{◌≡◌, ◌≤◌, [], length, IfSome, Some};
ghost use Rattle.std.specs.Option.{option_map};
ghost use Rattle.terms.specs.Tables.{row_at};
ghost use Rattle.sources.specs.Answers.{six_cells};
ghost use Rattle.sources.specs.Benches.{head_for, bench_tables};
ghost use Rattle.sources.specs.BenchFormed.{Sound, bench_formed};

use crate::bench::Bench;
use crate::head::TableHead;
use crate::source::{Shape, Source};
use terms::{Cell, Fault, MAX_COLUMNS, Refusal};

impl<'a> Source for Bench<'a> {
    ghost tables = { λ b. bench_tables b.heads.now b.cells.now };

    ghost reads = { λ b. b.meter };

    ghost formed = { λ b. bench_formed b.heads.now b.cells.now b.taken b.ranged };

    fn shape(&self, table: u8) -> Option<Shape> {
        let head = self.find_head(table)?;
        Some(Shape::from(head))
    }

    fn fetch(
        &mut self,
        table: u8,
        row: usize,
        place: &mut [Cell; MAX_COLUMNS],
    ) -> Result<(), Fault> {
        *place = [None; MAX_COLUMNS];
        let no_row = Fault::of_row(Refusal::NoSuchRow, table, row);
        let cells = self.find_row(table, row).ok_or(no_row)?;
        self.meter = self.meter.wrapping_add(1);
        *place = in_place(cells);
        Ok(())
    }

    fn meter(&self) -> u64 {
        self.meter
    }
}

impl<'a> Bench<'a> {
    // The head that counts for a number.
    fn find_head(&self, number: u8) -> Option<TableHead>
        ensures head { result ≡ head_for self.now.heads.now number }
        ensures sound { IfSome result (Sound (length self.now.cells.now) number) }
    {
        self.heads
            .iter()
            .find(|head| head.number == number)
            .copied()
    }

    // The cells of a row, if the bench has that row.
    fn find_row(&self, table: u8, row: usize) -> Option<&'a [Cell]>
        ensures row { option_map (λ cells. Some cells.now) result ≡ row_at (bench_tables self.now.heads.now self.now.cells.now table) row }
        ensures few { IfSome result (λ cells. length cells.now ≤ 6) }
    {
        let head = self.find_head(table)?;
        if row >= head.rows {
            return None;
        }
        let columns = head.columns as usize;
        let start = head.first + row * columns;
        Some(&self.cells[start..start + columns])
    }
}

// A row's cells, and absent ones after them. That there are six at most is in no type: a head's columns are a plain number,
// which the caller gives.
fn in_place(row: &[Cell]) -> [Cell; MAX_COLUMNS]
    requires { length row.now ≤ 6 }
    ensures { result ≡ six_cells row.now }
{
    let mut cells = [None; MAX_COLUMNS];
    cells[..row.len()].copy_from_slice(row);
    cells
}
