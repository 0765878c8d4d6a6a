//! The linter: the least fault of a program, or its own numbers and its tables.
#![tactic(auto)]

mod answer;
mod earlier;
mod exports;
mod forbidden_forms;
mod great_arity;
mod guard_form;
mod guards;
mod kinds;
mod laws;
mod linted;
mod missing_functions;
mod missing_main;
mod on_exprs;
mod repeated_functions;
mod repeated_modules;
mod repeated_variables;
mod sizes;
mod unbound_variables;
mod undefined_exports;
mod unknown_functions;
mod wrong_values;

pub use answer::LintAnswer;
pub use laws::some_verdict;
pub use linted::{Linted, lint};
