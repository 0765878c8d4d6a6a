//! Reads the text of a module, exactly where the grammar gives it a tree.
//!
//! What is still to be read lies on a stack of goals, and what was read on a stack of values. Each
//! rule of the grammar has a module, with all the goals that it takes.
#![tactic(auto)]

mod annotation;
mod answer;
mod attribute;
mod clause;
mod constant;
mod construct;
mod export;
mod expr;
mod function;
mod goal;
mod interning;
mod laws;
mod level;
mod list;
mod module;
mod name;
mod number;
mod part;
mod pattern;
mod read;
mod run;
mod settle;
mod state;
mod step;
mod symbol;
mod variable;

pub use answer::{ReadAnswer, Refused};
pub use laws::{one_tree, one_verdict, some_verdict, spaces_are_no_module};
pub use read::read_module;
