//! Code trees in the making: what is written of a tree, the tests of patterns, and the registers of
//! the variables in scope.
#![tactic(auto)]

mod branches;
mod builder;
mod checks;
mod closing;
mod guarded;
mod patterns;
mod place;
mod registers;
mod scope;

pub use branches::Branches;
pub use builder::Builder;
pub use checks::Checks;
pub use closing::{close, open, write_tree};
pub use guarded::Guarded;
pub use patterns::{copied_text, test_all};
pub use place::{Aim, End, Place};
pub use registers::{parameter_registers, register_at};
pub use scope::Scope;
