ghost use Rattle.std.specs.Prelude.{◌≡◌};
ghost use Rattle.language_cases.specs.Tokens.{symbol_text};

use hy_core::Symbol;

/// A keyword or a mark as it is written.
pub fn text_of(symbol: Symbol) -> &'static str
    ensures { result.now ≡ symbol_text symbol }
{
    match symbol {
        Symbol::After => "after",
        Symbol::Apply => "apply",
        Symbol::Attributes => "attributes",
        Symbol::Call => "call",
        Symbol::Case => "case",
        Symbol::Catch => "catch",
        Symbol::Do => "do",
        Symbol::End => "end",
        Symbol::Fun => "fun",
        Symbol::In => "in",
        Symbol::Let => "let",
        Symbol::Letrec => "letrec",
        Symbol::Module => "module",
        Symbol::Of => "of",
        Symbol::Primop => "primop",
        Symbol::Receive => "receive",
        Symbol::Try => "try",
        Symbol::When => "when",
        Symbol::Open => "(",
        Symbol::Close => ")",
        Symbol::OpenTuple => "{",
        Symbol::CloseTuple => "}",
        Symbol::OpenList => "[",
        Symbol::CloseList => "]",
        Symbol::Less => "<",
        Symbol::Greater => ">",
        Symbol::Comma => ",",
        Symbol::Colon => ":",
        Symbol::Slash => "/",
        Symbol::Equals => "=",
        Symbol::Bar => "|",
        Symbol::Arrow => "->",
        Symbol::NoteBar => "-|",
    }
}
