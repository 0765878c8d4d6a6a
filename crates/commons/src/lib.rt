//! The message area and the log that processes share, by what each pass knows of them.
#![tactic(auto)]

mod contract;
mod entries;
mod laws;
mod plain;
mod plain_calls;
mod plain_ends;
#[cfg(test)]
mod tests;
mod view;

pub use contract::{AreaFull, Commons, Link, LogFull};
pub use entries::{entry_kind, put_print, put_send, put_spawn, put_words};
pub use laws::{knowing_more_keeps_terms, known_places_tell, longer_is_longest};
pub use plain::{Final, PlainCommons, PlainPass};
pub use view::{Refusal, View};
