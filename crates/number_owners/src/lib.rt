//! The functions in which the sites and the events of a program stand.
#![tactic(auto)]

pub mod laws;
