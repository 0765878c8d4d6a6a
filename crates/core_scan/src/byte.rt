ghost use Rattle.std.specs.Prelude.{◌≡◌};
ghost use Rattle.hy_core.specs.Bytes.{mark_of, plain_class, class_of, is_variable_part, is_printable, is_octal};
ghost use Rattle.hy_core.specs.Tokens.{keyword, mark_behind_minus};
ghost use Rattle.core_scan.specs.code.Scan.{closes};

use crate::state::Quote;
use hy_core::{ByteClass, Symbol};

#[tactic(auto, unfolding(hy_core::specs::Bytes::mark_of))]
fn mark(b: u8) -> Option<Symbol>
    ensures { result ≡ mark_of b }
{
    match b {
        b'(' => Some(Symbol::Open),
        b')' => Some(Symbol::Close),
        b'[' => Some(Symbol::OpenList),
        b']' => Some(Symbol::CloseList),
        b'<' => Some(Symbol::Less),
        b'>' => Some(Symbol::Greater),
        b',' => Some(Symbol::Comma),
        b':' => Some(Symbol::Colon),
        b'/' => Some(Symbol::Slash),
        b'=' => Some(Symbol::Equals),
        b'{' => Some(Symbol::OpenTuple),
        b'}' => Some(Symbol::CloseTuple),
        b'|' => Some(Symbol::Bar),
        _ => None,
    }
}

#[tactic(auto, unfolding(hy_core::specs::Bytes::plain_class))]
fn class_of_plain(b: u8) -> ByteClass
    ensures { result ≡ plain_class b }
{
    match b {
        b' ' | 9..=13 => ByteClass::Space,
        b'0'..=b'9' => ByteClass::Digit,
        b'a'..=b'z' => ByteClass::Lower,
        b'_' | b'A'..=b'Z' => ByteClass::Capital,
        b'\'' => ByteClass::Quote,
        b'"' => ByteClass::DoubleQuote,
        b'$' => ByteClass::Dollar,
        b'%' => ByteClass::Percent,
        b'\\' => ByteClass::Backslash,
        b'@' => ByteClass::At,
        b'+' => ByteClass::Plus,
        b'-' => ByteClass::Minus,
        _ => ByteClass::Other,
    }
}

#[tactic(auto, unfolding(hy_core::specs::Bytes::class_of))]
pub fn class(b: u8) -> ByteClass
    ensures { result ≡ class_of b }
{
    match mark(b) {
        Some(symbol) => ByteClass::Mark(symbol),
        None => class_of_plain(b),
    }
}

#[tactic(auto, unfolding(hy_core::specs::Bytes::is_printable))]
pub fn printable(b: u8) -> bool
    ensures { result ≡ is_printable b }
{
    32 <= b && b <= 126
}

#[tactic(auto, unfolding(hy_core::specs::Bytes::is_octal))]
pub fn octal(b: u8) -> bool
    ensures { result ≡ is_octal b }
{
    b'0' <= b && b <= b'7'
}

pub fn variable_part(class: ByteClass) -> bool
    ensures { result ≡ is_variable_part class }
{
    matches!(
        class,
        ByteClass::At | ByteClass::Digit | ByteClass::Lower | ByteClass::Capital
    )
}

/// Whether a byte of this class ends what this quote began.
pub fn ends(quote: Quote, class: ByteClass) -> bool
    ensures { result ≡ closes quote class }
{
    match quote {
        Quote::Single => matches!(class, ByteClass::Quote),
        Quote::Double => matches!(class, ByteClass::DoubleQuote),
    }
}

/// The mark that is `-` and a byte of this class.
pub fn behind_minus(class: ByteClass) -> Option<Symbol>
    ensures { result ≡ mark_behind_minus class }
{
    match class {
        ByteClass::Mark(Symbol::Greater) => Some(Symbol::Arrow),
        ByteClass::Mark(Symbol::Bar) => Some(Symbol::NoteBar),
        _ => None,
    }
}

#[tactic(auto, unfolding(hy_core::specs::Tokens::keyword))]
pub fn keyword(letters: &[u8]) -> Option<Symbol>
    ensures { result ≡ keyword letters.now }
{
    // The check gives up at patterns of more than five bytes.
    if letters == b"attributes".as_slice() {
        return Some(Symbol::Attributes);
    }
    if letters == b"letrec".as_slice() {
        return Some(Symbol::Letrec);
    }
    if letters == b"module".as_slice() {
        return Some(Symbol::Module);
    }
    if letters == b"primop".as_slice() {
        return Some(Symbol::Primop);
    }
    if letters == b"receive".as_slice() {
        return Some(Symbol::Receive);
    }
    match letters {
        b"after" => Some(Symbol::After),
        b"apply" => Some(Symbol::Apply),
        b"call" => Some(Symbol::Call),
        b"case" => Some(Symbol::Case),
        b"catch" => Some(Symbol::Catch),
        b"do" => Some(Symbol::Do),
        b"end" => Some(Symbol::End),
        b"fun" => Some(Symbol::Fun),
        b"in" => Some(Symbol::In),
        b"let" => Some(Symbol::Let),
        b"of" => Some(Symbol::Of),
        b"try" => Some(Symbol::Try),
        b"when" => Some(Symbol::When),
        _ => None,
    }
}
