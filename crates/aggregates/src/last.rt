// The first recorder's house aggregate.
use crate::combine::Combine;

// LAST: the last present cell, absent where there is none.
pub struct Last;

impl Combine for Last {
    ghost combined = { λ so_far next. next };

    fn combine(_so_far: i64, next: i64) -> i64 {
        next
    }
}
