//! Reads the text of a module, prints its canonical text, and gives the modules that each program
//! has beside those that are given: one place for what the three crates below do.
#![tactic(auto)]

pub use core_parse::{ReadAnswer, Refused, read_module};
pub use core_prelude::prelude;
pub use core_print::print_module;
