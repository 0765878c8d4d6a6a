//! The code of a program: which code trees carry a program out, and that they mean what it means.
#![tactic(auto)]

pub mod laws;
