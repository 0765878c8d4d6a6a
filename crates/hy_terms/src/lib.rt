//! Terms, the tables of atoms and words, and the texts of scalars.
#![tactic(auto)]

mod atoms;
pub mod laws;
mod memory;
mod range;
mod term;
mod text;
mod text_table;
mod words;

pub use atoms::{AtomFault, Atoms};
pub use memory::Memory;
pub use range::{GREATEST_NUMBER, LEAST_NUMBER};
pub use term::{Colour, Labelled, LabelledTerms, Term, Terms};
pub use text::{push_atom, push_int, push_pid, push_quoted};
pub use text_table::TextTable;
pub use words::Words;
