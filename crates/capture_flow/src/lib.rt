//! The least sets of variables that functions have, by what occurs in them and whom they use.
#![tactic(auto)]

mod edges;
mod fact;
mod members;
mod worklist;

pub use fact::{Edge, Fact, Member};
pub use worklist::least_members;
