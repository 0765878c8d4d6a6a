use sqlite_items::Items;

/// A keyword or a mark.
#[derive(Clone, Copy, Debug, PartialEq, Eq)]
pub enum Symbol {
    After,
    Apply,
    Attributes,
    Call,
    Case,
    Catch,
    Do,
    End,
    Fun,
    In,
    Let,
    Letrec,
    Module,
    Of,
    Primop,
    Receive,
    Try,
    When,
    /// `(`
    Open,
    /// `)`
    Close,
    /// `{`
    OpenTuple,
    /// `}`
    CloseTuple,
    /// `[`
    OpenList,
    /// `]`
    CloseList,
    /// `<`
    Less,
    /// `>`
    Greater,
    /// `,`
    Comma,
    /// `:`
    Colon,
    /// `/`
    Slash,
    /// `=`
    Equals,
    /// `|`
    Bar,
    /// `->`
    Arrow,
    /// `-|`
    NoteBar,
}

/// What a byte is, where a token may begin.
#[derive(Clone, Copy, Debug, PartialEq, Eq)]
pub enum ByteClass {
    /// Bytes 9 to 13, and the space.
    Space,
    Digit,
    /// `a` to `z`.
    Lower,
    /// `A` to `Z`, and `_`.
    Capital,
    /// `'`
    Quote,
    /// `"`
    DoubleQuote,
    /// `$`
    Dollar,
    /// `%`
    Percent,
    /// `\`
    Backslash,
    /// `@`
    At,
    /// `+`
    Plus,
    /// `-`
    Minus,
    /// A mark of this one byte.
    Mark(Symbol),
    Other,
}

/// What stands before the digits of an integer.
#[derive(Clone, Copy, Debug, PartialEq, Eq)]
pub enum Sign {
    Absent,
    Plus,
    Minus,
}

/// A token of a module's text. Digits are kept as they are written.
#[derive(Drop)]
pub enum Token {
    Integer(Sign, Items<u8>),
    /// The code of a character.
    Character(u8),
    /// What an atom stands for, without quotes and escapes.
    Atom(Items<u8>),
    /// What a string stands for, without quotes and escapes.
    Str(Items<u8>),
    Variable(Items<u8>),
    Symbol(Symbol),
}

/// A token, with the number of bytes that are left where it begins.
#[derive(Drop)]
pub struct Lexeme {
    pub left: usize,
    pub token: Token,
}

/// What comes behind the last token of a text.
#[derive(Clone, Copy, Debug, PartialEq, Eq)]
pub enum Ending {
    /// Nothing but spaces and comments.
    Clean,
    /// An atom, a string or a character that is open at the end.
    Open,
    /// Bytes that form no token, with the number of bytes that are left there.
    Bad(usize),
}
