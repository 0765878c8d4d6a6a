ghost use Rattle.std.specs.Prelude.{◌≡◌, ◌++◌, IfOk, OnOk};
ghost use Rattle.std.specs.List.{flat_map};
ghost use Rattle.language_cases.specs.Tokens.{IsTokensAnswer, byte_text, ending_text, lexeme_text, token_text};

use crate::fault::CaseFault;
use crate::pieces::push_shortened;
use crate::symbols::text_of;
use core_scan::{Lexed, lex};
use hy_core::{Ending, Lexeme, Sign, Token};
use std::alloc::Global;

/// The tokens of a text, each with its place, and what comes behind the last.
pub fn tokens_answer(alloc: Global, text: &[u8]) -> Result<Vec<u8>, CaseFault>
    ensures { IfOk result (λ answer. IsTokensAnswer text.now answer.items) }
{
    let Lexed { lexemes, ending } = lex(alloc, text)?;
    let mut line = Vec::new(alloc);
    push_lexemes(&mut line, text.len(), lexemes.as_slice())?;
    push_ending(&mut line, text.len(), ending)?;
    let mut answer = Vec::new(alloc);
    push_shortened(&mut answer, line.as_slice())?;
    answer.push(b'\n')?;
    Ok(answer)
}

fn push_lexemes(line: &mut Vec<u8>, size: usize, lexemes: &[Lexeme]) -> Result<(), CaseFault>
    ensures { OnOk result
        (line.new.items ≡ line.old.items ++ flat_map (lexeme_text size) lexemes.now) }
{
    for lexeme in lexemes {
        push_lexeme(line, size, lexeme)?;
    }
    Ok(())
}

fn push_lexeme(line: &mut Vec<u8>, size: usize, lexeme: &Lexeme) -> Result<(), CaseFault>
    ensures { OnOk result (line.new.items ≡ line.old.items ++ lexeme_text size lexeme.now) }
{
    let place = format!(in *line.allocator(); "{} ", size.saturating_sub(lexeme.left))?;
    line.extend_from_slice(place.as_bytes())?;
    push_token(line, &lexeme.token)?;
    line.extend_from_slice(b"; ")?;
    Ok(())
}

fn push_ending(line: &mut Vec<u8>, size: usize, ending: Ending) -> Result<(), CaseFault>
    ensures { OnOk result (line.new.items ≡ line.old.items ++ ending_text size ending) }
{
    match ending {
        Ending::Clean => line.extend_from_slice(b"clean")?,
        Ending::Open => line.extend_from_slice(b"open")?,
        Ending::Bad(left) => {
            let bad = format!(in *line.allocator(); "bad {}", size.saturating_sub(left))?;
            line.extend_from_slice(bad.as_bytes())?;
        }
    }
    Ok(())
}

fn push_token(line: &mut Vec<u8>, token: &Token) -> Result<(), CaseFault>
    ensures { OnOk result (line.new.items ≡ line.old.items ++ token_text token.now) }
{
    match token {
        Token::Integer(Sign::Absent, digits) => push_titled(line, b"int ", digits.as_slice()),
        Token::Integer(Sign::Plus, digits) => push_titled(line, b"int +", digits.as_slice()),
        Token::Integer(Sign::Minus, digits) => push_titled(line, b"int -", digits.as_slice()),
        Token::Character(code) => {
            let text = format!(in *line.allocator(); "char {code}")?;
            line.extend_from_slice(text.as_bytes())?;
            Ok(())
        }
        Token::Atom(text) => push_titled(line, b"atom ", text.as_slice()),
        Token::Str(text) => push_titled(line, b"string ", text.as_slice()),
        Token::Variable(text) => push_titled(line, b"var ", text.as_slice()),
        Token::Symbol(symbol) => {
            line.extend_from_slice(text_of(*symbol).as_bytes())?;
            Ok(())
        }
    }
}

/// Appends a title, and then the bytes 32 to 126 as they are and others as `<127>`.
fn push_titled(line: &mut Vec<u8>, title: &[u8], bytes: &[u8]) -> Result<(), CaseFault>
    ensures { OnOk result
        (line.new.items ≡ line.old.items ++ title.now ++ flat_map byte_text bytes.now) }
{
    line.extend_from_slice(title)?;
    for byte in bytes {
        push_byte(line, *byte)?;
    }
    Ok(())
}

fn push_byte(line: &mut Vec<u8>, byte: u8) -> Result<(), CaseFault>
    ensures { OnOk result (line.new.items ≡ line.old.items ++ byte_text byte) }
{
    if 32 <= byte && byte <= 126 {
        line.push(byte)?;
    } else {
        let text = format!(in *line.allocator(); "<{byte}>")?;
        line.extend_from_slice(text.as_bytes())?;
    }
    Ok(())
}
