//! What names of a program's atoms mean: the one primop of the subset, and built-ins.
#![tactic(auto)]

mod built_in;
mod names;
mod rows;

pub use built_in::{BuiltIn, atom_of, called};
pub use names::is_match_fail;
