// Sheets: a query is entered step by step, and every step is taken or declined.
#![tactic(auto)]

mod blocks;
mod draft;
mod sheet;

pub use blocks::{InnerBlock, SheetQuery};
pub use sheet::Sheet;
