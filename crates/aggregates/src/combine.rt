// Aggregates of one number, which the present cells make one after the other.
ghost use Rattle.std.specs.Prelude.{◌≡◌, ℤ};
ghost use Rattle.meaning.specs.Aggregates.{combining};

use crate::function::AggregateFunction;
use terms::Cell;

// How two numbers become one. Whatever does so is an aggregate function: the present cells combined in order, absent where
// there is none.
pub trait Combine {
    // What the combining means.
    ghost combined: { ℤ → ℤ → ℤ };

    // The number that stands for those so far and the next one.
    fn combine(so_far: i64, next: i64) -> i64
        ensures { result ≡ combined so_far next };
}

impl<C: Combine> AggregateFunction for C {
    type Total = Option<i64>;

    ghost meaning = { combining C.combined };

    fn start() -> Option<i64> {
        None
    }

    fn step(total: Option<i64>, cell: Cell) -> Option<i64> {
        match (total, cell) {
            (total, None) => total,
            (None, Some(first)) => Some(i64::from(first)),
            (Some(so_far), Some(next)) => Some(C::combine(so_far, i64::from(next))),
        }
    }

    fn answer(total: &Option<i64>) -> Option<i64> {
        *total
    }
}
