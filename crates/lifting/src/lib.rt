//! Lifting: each function of a letrec becomes a function of the program.
#![tactic(auto)]

mod assembly;
mod program;

pub use program::lift;
