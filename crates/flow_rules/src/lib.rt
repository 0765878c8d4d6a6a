//! The inclusions between sets of sites that a code gives.
#![tactic(auto)]

pub mod laws;
mod lists;
mod operations;
mod sets;
mod trees;

pub use flow_sets::{FlowSet, Inclusion, Rules};
pub use trees::rules;
