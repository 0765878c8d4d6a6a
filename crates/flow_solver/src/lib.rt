//! The least sets closed under inclusions, by a worklist.
#![tactic(auto)]

mod fields;
mod lists;
mod members;
mod readers;
mod table;
#[cfg(test)]
mod tests;
mod work;
mod worklist;

pub use table::solve;
