//! The functions of a program whose letrecs are lifted.
#![tactic(auto)]

mod calls;
mod captured_lists;
mod copies;
mod expressions;
mod extraction;
mod function_numbers;
mod lifted_text;
mod program;
mod tables;

pub use lifted_text::LiftedText;
pub use program::lift_functions;
