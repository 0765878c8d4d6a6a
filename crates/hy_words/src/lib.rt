//! Words and their tags, headers of cells, and the private heap of a process.
#![tactic(auto)]

mod cell_kind;
mod heap;
mod kind;
mod laws;
pub mod tags;
#[cfg(test)]
mod tests;
mod word_list;
mod words;

pub use cell_kind::CellKind;
pub use heap::{Heap, HeapFault};
pub use kind::{Entry, Kind};
pub use laws::{
    area_keeps_terms, growing_keeps_names, growing_keeps_terms, headers_by_tag, heights_by_fields,
    one_word_one_term, scalars_stand, terms_are_low, wider_kind_is_named, words_stand_for_labelled,
    words_that_name,
};
pub use word_list::WordList;
pub use words::{
    area_word, atom_word, cons_header, entry_header, following, int_word, nil_word, number,
    payload, pid_word, private_word, site, size, tag, tuple_header,
};
