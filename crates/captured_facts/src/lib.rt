//! What a program says of the functions of its letrecs: the facts by which they capture variables.
#![tactic(auto)]

pub mod laws;
mod owner;

pub use owner::Owner;
