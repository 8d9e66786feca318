// The words that every other crate uses: cells, comparisons and faults.
#![tactic(auto)]

mod cells;
mod comparisons;
mod faults;
mod limits;
mod printing;
mod refusals;

pub use cells::{Cell, WorkCell, same_cell};
pub use comparisons::Comparison;
pub use faults::{Fault, Layer};
pub use limits::{MAX_COLUMNS, MAX_ROWS, is_column, is_table};
pub use refusals::Refusal;
