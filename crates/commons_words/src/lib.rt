//! The commons on one table of atomic words, for any threads.
#![tactic(auto)]

mod link_calls;
mod passes;
mod plays;
mod reading;
mod rule;
#[cfg(test)]
mod tests;
mod word_commons;
mod word_link;

pub use passes::WordPass;
pub use word_commons::WordCommons;
pub use word_link::WordLink;
