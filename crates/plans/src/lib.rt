// Plans: a finished sheet is translated into a flat plan.
#![tactic(auto)]

mod blocks;
mod joining;
mod plan;
mod steps;
mod translation;
mod unnesting;

pub use blocks::{TranslatedBlock, TranslatedQuery};
pub use plan::Plan;
