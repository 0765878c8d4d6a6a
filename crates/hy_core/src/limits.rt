/// The limits of a run: words of the message area, places of the log, and for each process the
/// words of its private heap and its calls of functions.
#[derive(Clone, Copy, Debug, PartialEq, Eq)]
pub struct Limits {
    pub area: u64,
    pub log: u64,
    pub heap: u64,
    pub calls: u64,
}
