//! The numbers of events and sites in resolved trees.
#![tactic(auto)]

pub mod laws;
