// Table sources: what the engine asks of whatever holds the recorder's tables, and the bench, a source over plain cells.
#![tactic(auto)]

mod bench;
mod head;
mod ranges;
mod source;

pub use bench::Bench;
pub use head::{TableHead, head_in_range};
pub use ranges::check_range;
pub use source::{Shape, Source};
