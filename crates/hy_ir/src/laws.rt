//! Laws of what codes mean. Each function does nothing: its clause is the law.

/// Code trees, form by form: what is done first, and what is left.
pub mod meaning;
/// Trees as definitions compute with them.
pub mod trees;
/// Small codes, and what they do.
pub mod worked;
