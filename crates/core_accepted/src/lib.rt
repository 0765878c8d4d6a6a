//! Laws of accepted programs: what their trees are known to be.
#![tactic(auto)]

/// What holds of each accepted program. Each function does nothing: its clause is the law.
pub mod laws;
