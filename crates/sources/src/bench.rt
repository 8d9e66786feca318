// The bench: a source over cells in memory, for trying queries out without a card.
ghost use Rattle.std.specs.Prelude.{◌≡◌, true};
ghost use Rattle.terms.specs.Cells.{cell_in_range, every};
ghost use Rattle.sources.specs.Benches.{bench_takes};

use crate::head::TableHead;
use terms::Cell;

mod loading;
pub(crate) mod showing;
#[cfg(test)]
mod tests;

// Table heads over a list of cells, both lent; all rows are readable. Every bench that exists has heads that all passed
// the load, so no call checks one again.
#[derive(Drop)]
pub struct Bench<'a> {
    heads: &'a [TableHead],
    cells: &'a [Cell],
    meter: u64,
    ghost taken: { bench_takes heads.now cells.now ≡ true },
    ghost ranged: { every cell_in_range cells.now ≡ true },
}
