/// What the place of an expression asks of it, beside the number of its values.
#[derive(Clone, Copy, Debug, PartialEq, Eq)]
pub enum Place {
    Anywhere,
    /// What an `apply` applies.
    Applied,
    /// The timeout of a `receive`.
    Timeout,
    /// The whole guard of a clause.
    WholeGuard,
}
