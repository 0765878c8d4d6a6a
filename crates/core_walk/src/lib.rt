//! A walk over the nodes of functions, up to the first at which a check fails.
#![tactic(auto)]

mod cases;
mod check;
mod first;
mod function_names;
mod patterns;
mod position;
mod scope;
mod stop;
mod walk;

pub use cases::needs_of_case;
pub use check::{Check, form_of};
pub use first::{first_in_module, first_in_program, number};
pub use function_names::FunctionNames;
pub use patterns::push_variables;
pub use position::{Demand, Position};
pub use scope::Scope;
pub use walk::is_nil;
