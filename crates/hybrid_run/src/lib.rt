//! The top call, over what the program meets outside.
#![tactic(auto)]

mod built;
mod check;
mod command;
mod evaluate;
mod fault;
mod lint;
mod load;
mod output;
mod run;
mod top;
mod value;

pub use command::{Mode, files};
pub use core_reader::Refused;
pub use fault::{TopFault, fault_text};
pub use top::{Finish, hybrid};
