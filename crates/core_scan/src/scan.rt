ghost use Rattle.std.specs.Prelude.{◌≡◌, ◌≤◌, ℕ, List, [], ◌∷◌, length, IfOk};
ghost use Rattle.hy_core.specs.Bytes.{class_of, is_digit, is_lower};
ghost use Rattle.hy_core.specs.Tokens.{Lexes, AreWithin, EndsWithin};
ghost use Rattle.core_scan.specs.code.Scan.{quoted_token, begun, inside, stepped, escape_ended, ended, Steps, EndsAs};
ghost use Rattle.hy_core.specs.declared.token.Ending.TheVariants.{Clean};
ghost use Rattle.core_scan.specs.declared.state.State.TheVariants.{Comment, Signed, Integer, Variable, Keyword as InKeyword, Quoted, QuotedEscape, Character, CharacterEscape};

use crate::byte::{behind_minus, class, ends, keyword, printable, variable_part};
use crate::escape::escape;
use crate::state::{Escape, Escaping, Quote, State};
use hy_core::{ByteClass, Ending, Lexeme, Sign, Token};
use sqlite_items::Items;
use std::alloc::{AllocError, Global};

/// The tokens of a text, and what comes behind the last.
#[derive(Drop)]
pub struct Lexed {
    pub lexemes: Items<Lexeme>,
    pub ending: Ending,
}

fn one(alloc: Global, b: u8) -> Result<Items<u8>, AllocError>
    ensures { IfOk result (λ xs. xs ≡ b ∷ []) }
{
    let mut bytes = Items::new(alloc);
    bytes.push(b)?;
    Ok(bytes)
}

// A byte behind a token.
fn begin(alloc: Global, left: usize, b: u8, out: &mut Items<Lexeme>) -> Result<State, AllocError>
    ensures { IfOk result (λ s. Steps out.old out.new s (begun left b (class_of b))) }
{
    match class(b) {
        ByteClass::Space => Ok(State::Gap),
        ByteClass::Percent => Ok(State::Comment),
        ByteClass::Digit => Ok(State::Integer(left, Sign::Absent, one(alloc, b)?)),
        ByteClass::Plus => Ok(State::Signed(left, Sign::Plus)),
        ByteClass::Minus => Ok(State::Signed(left, Sign::Minus)),
        ByteClass::Lower => Ok(State::Keyword(left, one(alloc, b)?)),
        ByteClass::Capital => Ok(State::Variable(left, one(alloc, b)?)),
        ByteClass::Quote => Ok(State::Quoted(left, Quote::Single, Items::new(alloc))),
        ByteClass::DoubleQuote => Ok(State::Quoted(left, Quote::Double, Items::new(alloc))),
        ByteClass::Dollar => Ok(State::Character(left)),
        ByteClass::Mark(symbol) => {
            out.push(Lexeme {
                left,
                token: Token::Symbol(symbol),
            })?;
            Ok(State::Gap)
        }
        _ => Ok(State::Failed(left)),
    }
}

fn step(
    alloc: Global,
    left: usize,
    state: State,
    b: u8,
    out: &mut Items<Lexeme>,
) -> Result<State, AllocError>
    ensures { IfOk result (λ s. Steps out.old out.new s (stepped left state b)) }
{
    match state {
        State::Gap => begin(alloc, left, b, out),
        State::Comment => Ok(in_comment(b)),
        State::Signed(from, sign) => in_signed(alloc, from, sign, b, out),
        State::Integer(from, sign, digits) => in_integer(alloc, left, from, sign, digits, b, out),
        State::Variable(from, text) => in_variable(alloc, left, from, text, b, out),
        State::Keyword(from, letters) => in_keyword(alloc, left, from, letters, b, out),
        State::Quoted(from, quote, text) => in_quotes(from, quote, text, b, out),
        State::QuotedEscape(from, quote, text, read) => {
            in_quoted_escape(from, quote, text, read, b, out)
        }
        State::Character(from) => in_character(from, b, out),
        State::CharacterEscape(from, read) => {
            in_character_escape(alloc, left, from, read, b, out)
        }
        State::Failed(from) => Ok(State::Failed(from)),
    }
}

fn in_comment(b: u8) -> State
    ensures { stepped 0 Comment b ≡ (result, []) }
{
    if b == b'\n' {
        State::Gap
    } else {
        State::Comment
    }
}

fn in_signed(
    alloc: Global,
    from: usize,
    sign: Sign,
    b: u8,
    out: &mut Items<Lexeme>,
) -> Result<State, AllocError>
    ensures { IfOk result (λ s. Steps out.old out.new s (stepped 0 (Signed from sign) b)) }
{
    let class = class(b);
    if matches!(class, ByteClass::Digit) {
        return Ok(State::Integer(from, sign, one(alloc, b)?));
    }
    if !matches!(sign, Sign::Minus) {
        return Ok(State::Failed(from));
    }
    match behind_minus(class) {
        Some(mark) => {
            out.push(Lexeme {
                left: from,
                token: Token::Symbol(mark),
            })?;
            Ok(State::Gap)
        }
        None => Ok(State::Failed(from)),
    }
}

fn in_integer(
    alloc: Global,
    left: usize,
    from: usize,
    sign: Sign,
    digits: Items<u8>,
    b: u8,
    out: &mut Items<Lexeme>,
) -> Result<State, AllocError>
    ensures { IfOk result (λ s. Steps out.old out.new s
        (stepped left (Integer from sign digits) b)) }
{
    match class(b) {
        ByteClass::Digit => {
            let mut digits = digits;
            digits.push(b)?;
            Ok(State::Integer(from, sign, digits))
        }
        _ => {
            out.push(Lexeme {
                left: from,
                token: Token::Integer(sign, digits),
            })?;
            begin(alloc, left, b, out)
        }
    }
}

fn in_variable(
    alloc: Global,
    left: usize,
    from: usize,
    text: Items<u8>,
    b: u8,
    out: &mut Items<Lexeme>,
) -> Result<State, AllocError>
    ensures { IfOk result (λ s. Steps out.old out.new s (stepped left (Variable from text) b)) }
{
    if variable_part(class(b)) {
        let mut text = text;
        text.push(b)?;
        return Ok(State::Variable(from, text));
    }
    out.push(Lexeme {
        left: from,
        token: Token::Variable(text),
    })?;
    begin(alloc, left, b, out)
}

fn in_keyword(
    alloc: Global,
    left: usize,
    from: usize,
    letters: Items<u8>,
    b: u8,
    out: &mut Items<Lexeme>,
) -> Result<State, AllocError>
    ensures { IfOk result (λ s. Steps out.old out.new s (stepped left (InKeyword from letters) b)) }
{
    match class(b) {
        ByteClass::Lower => {
            let mut letters = letters;
            letters.push(b)?;
            Ok(State::Keyword(from, letters))
        }
        _ => match keyword(letters.as_slice()) {
            Some(found) => {
                out.push(Lexeme {
                    left: from,
                    token: Token::Symbol(found),
                })?;
                begin(alloc, left, b, out)
            }
            None => Ok(State::Failed(from)),
        },
    }
}

// A byte inside an atom or a string.
fn in_quotes(
    from: usize,
    quote: Quote,
    text: Items<u8>,
    b: u8,
    out: &mut Items<Lexeme>,
) -> Result<State, AllocError>
    ensures { IfOk result (λ s. Steps out.old out.new s (stepped 0 (Quoted from quote text) b)) }
{
    let class = class(b);
    if ends(quote, class) {
        out.push(Lexeme {
            left: from,
            token: quoted(quote, text),
        })?;
        return Ok(State::Gap);
    }
    if matches!(class, ByteClass::Backslash) {
        return Ok(State::QuotedEscape(from, quote, text, Escape::Begun));
    }
    if !printable(b) {
        return Ok(State::Failed(from));
    }
    let mut text = text;
    text.push(b)?;
    Ok(State::Quoted(from, quote, text))
}

// The token between quotes.
fn quoted(quote: Quote, text: Items<u8>) -> Token
    ensures { result ≡ quoted_token quote text }
{
    match quote {
        Quote::Single => Token::Atom(text),
        Quote::Double => Token::Str(text),
    }
}

// A byte of an escape between quotes. The byte that ends an octal escape is taken again, behind
// it.
fn in_quoted_escape(
    from: usize,
    quote: Quote,
    text: Items<u8>,
    read: Escape,
    b: u8,
    out: &mut Items<Lexeme>,
) -> Result<State, AllocError>
    ensures { IfOk result (λ s. Steps out.old out.new s
        (stepped 0 (QuotedEscape from quote text read) b)) }
{
    let mut text = text;
    match escape(read, b) {
        Escaping::Open(more) => Ok(State::QuotedEscape(from, quote, text, more)),
        Escaping::Closed(byte) => {
            text.push(byte)?;
            Ok(State::Quoted(from, quote, text))
        }
        Escaping::Over(byte) => {
            text.push(byte)?;
            in_quotes(from, quote, text, b, out)
        }
        Escaping::Wrong => Ok(State::Failed(from)),
    }
}

// The byte behind a `$`.
fn in_character(from: usize, b: u8, out: &mut Items<Lexeme>) -> Result<State, AllocError>
    ensures { IfOk result (λ s. Steps out.old out.new s (stepped 0 (Character from) b)) }
{
    if matches!(class(b), ByteClass::Backslash) {
        return Ok(State::CharacterEscape(from, Escape::Begun));
    }
    if !printable(b) {
        return Ok(State::Failed(from));
    }
    out.push(Lexeme {
        left: from,
        token: Token::Character(b),
    })?;
    Ok(State::Gap)
}

// A byte of a character's escape. The byte that ends an octal escape is taken again, behind the
// token.
fn in_character_escape(
    alloc: Global,
    left: usize,
    from: usize,
    read: Escape,
    b: u8,
    out: &mut Items<Lexeme>,
) -> Result<State, AllocError>
    ensures { IfOk result (λ s. Steps out.old out.new s
        (stepped left (CharacterEscape from read) b)) }
{
    match escape(read, b) {
        Escaping::Open(more) => Ok(State::CharacterEscape(from, more)),
        Escaping::Closed(code) => {
            out.push(Lexeme {
                left: from,
                token: Token::Character(code),
            })?;
            Ok(State::Gap)
        }
        Escaping::Over(code) => {
            out.push(Lexeme {
                left: from,
                token: Token::Character(code),
            })?;
            begin(alloc, left, b, out)
        }
        Escaping::Wrong => Ok(State::Failed(from)),
    }
}

// What the end of the text makes of an unfinished token.
fn end(state: State, out: &mut Items<Lexeme>) -> Result<Ending, AllocError>
    ensures { IfOk result (λ ending. EndsAs out.old out.new ending (ended state)) }
{
    match state {
        State::Gap | State::Comment => Ok(Ending::Clean),
        State::Signed(from, _) => Ok(Ending::Bad(from)),
        State::Integer(from, sign, digits) => last(from, Token::Integer(sign, digits), out),
        State::Variable(from, text) => last(from, Token::Variable(text), out),
        State::Keyword(from, letters) => match keyword(letters.as_slice()) {
            Some(found) => last(from, Token::Symbol(found), out),
            None => Ok(Ending::Bad(from)),
        },
        State::Quoted(_, _, _) | State::QuotedEscape(_, _, _, _) | State::Character(_) => {
            Ok(Ending::Open)
        }
        State::CharacterEscape(from, read) => end_of_escape(from, read, out),
        State::Failed(from) => Ok(Ending::Bad(from)),
    }
}

// What the end of the text makes of the escape of a character.
fn end_of_escape(from: usize, read: Escape, out: &mut Items<Lexeme>) -> Result<Ending, AllocError>
    ensures { IfOk result (λ ending. EndsAs out.old out.new ending (escape_ended from read)) }
{
    match read {
        Escape::Begun | Escape::Control => Ok(Ending::Open),
        Escape::OneDigit(code) | Escape::TwoDigits(code) => {
            last(from, Token::Character(code), out)
        }
    }
}

fn last(left: usize, token: Token, out: &mut Items<Lexeme>) -> Result<Ending, AllocError>
    ensures { IfOk result (λ ending. EndsAs out.old out.new ending
        (record { left = left; token = token } ∷ [], Clean)) }
{
    out.push(Lexeme { left, token })?;
    Ok(Ending::Clean)
}

/// The tokens of the text, and what comes behind the last.
pub fn lex(alloc: Global, bytes: &[u8]) -> Result<Lexed, AllocError>
    ensures tokens { IfOk result (λ r. Lexes bytes.now r.lexemes r.ending) }
    ensures few { IfOk result (λ r. length r.lexemes ≤ length bytes.now) }
    // each lexeme, and a bad ending, stands inside the text
    ensures within { IfOk result (λ r. AreWithin (length bytes.now) r.lexemes
        × EndsWithin (length bytes.now) r.ending) }
{
    let mut lexemes = Items::new(alloc);
    let mut state = State::Gap;
    for (i, b) in bytes.iter().enumerate() {
        state = step(alloc, bytes.len() - i, state, *b, &mut lexemes)?;
    }
    let ending = end(state, &mut lexemes)?;
    Ok(Lexed { lexemes, ending })
}

/// A text is taken apart in one way.
pub fn one_lexing()
    ensures { (bytes : List ℕ) (ls os : List Lexeme) (end last : Ending) → Lexes bytes ls end
        → Lexes bytes os last → (ls ≡ os) × (end ≡ last) }
{}
