// The engine: a plan's steps over lent memory, and the calls that run queries.
#![tactic(auto)]

mod filter;
mod group;
mod groups;
mod layout;
mod output;
mod project;
mod restrict;
mod rows;
#[cfg(test)]
mod tests;
