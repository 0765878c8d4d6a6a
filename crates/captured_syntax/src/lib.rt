//! The facts of a program from its syntax, gathered in one walk.
#![tactic(auto)]

pub mod laws;
