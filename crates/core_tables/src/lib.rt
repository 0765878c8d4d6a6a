//! A program's own numbers and its tables.
#![tactic(auto)]

mod atom_numbers;
mod call;
mod expr;
mod infos;
mod local_count;
mod numbering;
mod numbers;
mod pattern_nodes;
mod patterns;
mod repeated;
mod table;

pub use atom_numbers::AtomNumbers;
pub use infos::function_table;
pub use numbering::{Numbered, number_program};
pub use pattern_nodes::pass_patterns;
