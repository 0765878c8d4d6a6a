//! The variables that the functions of letrecs of a program capture.
#![tactic(auto)]

mod captured;
mod expressions;
mod gathering;
mod scope;

pub use captured::captured_variables;
