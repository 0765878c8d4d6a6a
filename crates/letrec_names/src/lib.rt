//! The functions of the letrecs around a place, by their names, and how they are numbered.
#![tactic(auto)]

mod counts;
mod expressions;
pub mod laws;
mod names;
mod origins;

pub use counts::{NestedCounts, nested_counts};
pub use names::LetrecNames;
pub use origins::function_origins;
