//! Programs in which no binding stands in the scope of another of its variable.
#![tactic(auto)]

mod expressions;
mod limit;
mod patterns;
mod program;
mod scope;

pub use expressions::{rename_expr, rename_function};
pub use limit::variable_limit;
pub use program::rename_program;
pub use scope::Scope;
