//! What is built of a stack of values: the parts of a tree lie on it as they are read, and each form
//! takes its parts off and puts the tree in their place.
//!
//! `Value` is a part that was read, `Form` what a tree is made of, `Part` what a list of parts has
//! between its commas. Contracts see a stack as a list with the top first. `Tops` says what lies on
//! top, `Trees` what is built of it, and `Steps` what a function answers by that: `None` there is a
//! refusal `Unexpected` here. Each answer may be want of memory, and then nothing is known of the
//! stack.
#![tactic(auto)]

mod build;
mod clause_forms;
mod expr_forms;
mod fault;
mod form;
mod join;
mod parts;
mod pop;
mod value;

pub use build::build_form;
pub use fault::{StepFault, UNEXPECTED};
pub use form::{Form, Part};
pub use parts::{add_name, add_part, build_atom, close_list, keep_names, open_parts};
pub use pop::{has_pattern, pop_atom, pop_functions, pop_names, pop_pattern};
pub use value::{Head, Value};
