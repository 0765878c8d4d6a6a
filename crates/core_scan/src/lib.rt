//! Takes the text of a module apart into tokens, the longest first.
#![tactic(auto)]

mod byte;
mod escape;
mod scan;
mod state;

pub use scan::{Lexed, lex, one_lexing};
