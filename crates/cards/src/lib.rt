// Cards: tables in a byte image, read in place.
#![tactic(auto)]

mod card;
mod cells;
mod format;
mod records;
mod rows;

pub use card::Card;
pub use format::{RecordKind, row_width};
