/// Why a text is no module.
#[derive(Clone, Copy, Debug, PartialEq, Eq)]
pub enum RefusalKind {
    /// Bytes that form no token.
    BadToken,
    /// A token with which no module goes on.
    Unexpected,
    /// The text ends inside a module, or inside an atom, a string or a character.
    Ended,
    /// A number outside -2^59 to 2^59 - 1, or an arity above 65,535.
    NumberRange,
    /// A construct of level 401.
    TooDeep,
    /// More than 2^20 bytes.
    TooLong,
}
