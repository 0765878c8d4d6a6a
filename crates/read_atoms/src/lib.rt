//! Modules that are read have the atoms that they name in their own tables.
#![tactic(auto)]

pub mod laws;
