// Writing a table as a card record, and the record that a card has of a table.
#![tactic(auto)]

mod reading;
mod record;
#[cfg(test)]
mod tests;

pub use reading::record_of;
pub use record::write_table;
