// A list of bounded length that needs no heap.
#![tactic(auto)]

mod list;

pub use list::{Bounded, Full};
