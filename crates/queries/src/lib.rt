// The parts of queries and plans: entries as they are given, what they stand for, and the steps of a plan.
#![tactic(auto)]

mod aggregates;
mod entries;
mod nests;
mod parts;
mod printing;
mod ranges;
mod steps;

pub use aggregates::{Aggregate, Function};
pub use entries::{Entry, Part};
pub use nests::{Form, Nest};
pub use parts::{Link, Test};
pub use steps::{Operand, Step};
