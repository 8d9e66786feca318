// Aggregate functions: what any of them does, and the ones that every recorder has.
#![tactic(auto)]

mod columns;
mod combine;
mod function;
mod last;
#[cfg(test)]
mod tests;

pub use columns::{Count, Max, Min, Sum};
pub use combine::Combine;
pub use function::AggregateFunction;
pub use last::Last;
