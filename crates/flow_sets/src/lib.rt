//! Sets of sites, inclusions between them, and the table of the least sets.
#![tactic(auto)]

mod inclusion;
pub mod laws;
mod rule_list;
mod table;

pub use inclusion::{FlowSet, Inclusion};
pub use rule_list::Rules;
pub use table::{FieldSite, FlowTable, RegisterSite, ResultSite};
