// The functions of SQL over a column's cells.
ghost use Rattle.std.specs.Prelude.{◌≡◌};
ghost use Rattle.std.specs.Int.{int_min, int_max};
ghost use Rattle.meaning.specs.Aggregates.{count, plus};

use crate::combine::Combine;
use crate::function::AggregateFunction;
use terms::Cell;

// COUNT: how many cells are present. It stops at the end of the 64-bit range.
pub struct Count;

impl AggregateFunction for Count {
    type Total = i64;

    ghost meaning = { count };

    fn start() -> i64 {
        0
    }

    fn step(total: i64, cell: Cell) -> i64 {
        match cell {
            Some(_) => total.saturating_add(1),
            None => total,
        }
    }

    fn answer(total: &i64) -> Option<i64> {
        Some(*total)
    }
}

// SUM: the present cells added up, absent where there is none. It stops at the ends of the 64-bit range.
pub struct Sum;

impl Combine for Sum {
    ghost combined = { plus };

    fn combine(so_far: i64, next: i64) -> i64 {
        so_far.saturating_add(next)
    }
}

// MIN: the least of the present cells, absent where there is none.
pub struct Min;

impl Combine for Min {
    ghost combined = { int_min };

    fn combine(so_far: i64, next: i64) -> i64 {
        so_far.min(next)
    }
}

// MAX: the greatest of the present cells, absent where there is none.
pub struct Max;

impl Combine for Max {
    ghost combined = { int_max };

    fn combine(so_far: i64, next: i64) -> i64 {
        so_far.max(next)
    }
}
