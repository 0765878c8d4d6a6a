//! List notations of programs that are read: none is empty.
#![tactic(auto)]

pub mod laws;
