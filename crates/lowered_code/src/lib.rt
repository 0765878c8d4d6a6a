//! Lowering, as a definition: the code trees of each expression, and that they are a code of it.
#![tactic(auto)]

pub mod laws;
