//! The nodes of the events of each function of a program, those of letrecs included.
#![tactic(auto)]

mod calls;
mod events;
mod expressions;
mod nodes;
mod sharing;

pub use nodes::event_nodes;
