//! Code trees, and what they mean on labelled terms.
#![tactic(auto)]

mod arity;
mod code;
pub mod laws;
mod operations;
mod place;
#[cfg(test)]
mod tests;
mod validity;

pub use code::{Arm, Code, CodeFunction, Constant, Guard, Last, Op, Part, Test, Tree};
pub use flow_sets::{FlowSet, FlowTable, Inclusion};
pub use place::{Turn, tree_at};
pub use validity::validate;
