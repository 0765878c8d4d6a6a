//! Programs without letrecs: each function of one becomes a function of the program.
#![tactic(auto)]

pub mod laws;
mod lifted;

pub use lifted::{Lifted, LiftedFunction};
