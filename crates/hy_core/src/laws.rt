//! Laws of what programs mean. Each function does nothing: its clause is the law.

/// What the built-ins answer.
pub mod built_ins;
/// The laws of evaluation, form by form, by the Core Erlang 1.0.3 report.
pub mod evaluation;
/// Where runs end.
pub mod full_runs;
/// When patterns match and clauses hold.
pub mod matching;
/// Each built-in, form of pattern and outcome in small programs.
pub mod programs;
/// Small programs, and what they do.
pub mod runs;
/// When runs are the same, and how it is shown.
pub mod simulation;
/// Trees as definitions compute with them.
pub mod trees;
