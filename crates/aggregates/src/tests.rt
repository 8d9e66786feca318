// Each function over a list of cells means what the specs call by its name.
ghost use Rattle.std.specs.Prelude.{◌≡◌};
ghost use Rattle.meaning.specs.Aggregates.{over, count, sum, least, greatest, last};

use crate::{AggregateFunction, Count, Last, Max, Min, Sum};
use terms::Cell;

fn over<A: AggregateFunction>(cells: &[Cell]) -> Option<i64>
    ensures { result ≡ over A.meaning cells.now }
{
    let total = cells
        .iter()
        .fold(A::start(), |total, cell| A::step(total, *cell));
    A::answer(&total)
}

fn count_over(cells: &[Cell]) -> Option<i64>
    ensures { result ≡ over count cells.now }
{
    over::<Count>(cells)
}

fn sum_over(cells: &[Cell]) -> Option<i64>
    ensures { result ≡ over sum cells.now }
{
    over::<Sum>(cells)
}

fn min_over(cells: &[Cell]) -> Option<i64>
    ensures { result ≡ over least cells.now }
{
    over::<Min>(cells)
}

fn max_over(cells: &[Cell]) -> Option<i64>
    ensures { result ≡ over greatest cells.now }
{
    over::<Max>(cells)
}

fn last_over(cells: &[Cell]) -> Option<i64>
    ensures { result ≡ over last cells.now }
{
    over::<Last>(cells)
}

#[test]
fn present_and_absent_cells(rt: HostRuntime) {
    let cells = [None, Some(7), Some(-3), None, Some(5), None];
    assert_eq!(rt; count_over(&cells), Some(3));
    assert_eq!(rt; sum_over(&cells), Some(9));
    assert_eq!(rt; min_over(&cells), Some(-3));
    assert_eq!(rt; max_over(&cells), Some(7));
    assert_eq!(rt; last_over(&cells), Some(5));
}

#[test]
fn no_present_cell(rt: HostRuntime) {
    let cells = [None, None];
    assert_eq!(rt; count_over(&cells), Some(0));
    assert_eq!(rt; sum_over(&cells), None);
    assert_eq!(rt; min_over(&cells), None);
    assert_eq!(rt; max_over(&cells), None);
    assert_eq!(rt; last_over(&cells), None);
}
