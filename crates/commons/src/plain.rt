//! The commons over vectors, for one thread.
use crate::view::Refusal;
use hy_words::WordList;

/// What the commons keep of one pass.
#[derive(Clone, Copy)]
pub(crate) struct Account {
    pub(crate) pid: u64,
    pub(crate) parent: Option<u64>,
    pub(crate) known: u64,
    pub(crate) unborn: Option<u64>,
    pub(crate) block_start: u64,
    pub(crate) block_end: u64,
    pub(crate) looks: u64,
    pub(crate) puts: u64,
    pub(crate) requests: u64,
    pub(crate) refused: Option<Refusal>,
}

/// The claim word, the written words of the log, the words of the area, and an account for each
/// pass that was made. Own entries and children aren't stored: they follow from the log and the
/// accounts.
#[derive(Drop)]
pub struct PlainCommons {
    pub(crate) claim: u64,
    pub(crate) log: Vec<u64>,
    pub(crate) log_size: u64,
    pub(crate) area: Vec<u64>,
    pub(crate) accounts: Vec<Account>,
}

/// A pass names its account by its place, and tells its pid.
#[derive(Drop)]
pub struct PlainPass {
    pub(crate) slot: usize,
    pub(crate) pid: u64,
}

/// What is left of a commons: the written words of the log, all words of the area with 0 for those
/// that weren't written, and the claim word.
#[derive(Drop)]
pub struct Final {
    pub log: WordList,
    pub area: WordList,
    pub claimed: u64,
}
