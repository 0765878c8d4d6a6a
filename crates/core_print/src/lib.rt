//! Prints the canonical text of a module.
#![tactic(auto)]

mod expr;
mod module;
mod names;
mod pattern;
mod token;

pub use module::print_module;
