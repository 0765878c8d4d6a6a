ghost use Rattle.std.specs.Prelude.{◌≡◌, Err, IfOk, Ok, ℕ};
ghost use Rattle.hy_core.specs.Reading.{IsModuleText, tokens_in};
ghost use Rattle.hy_core.specs.Refusals.{IsRefusedText};
ghost use Rattle.hy_core.specs.Tokens.{AreWithin, EndsWithin};
ghost use Rattle.hy_core.specs.declared.refusal.RefusalKind.{RefusalKind};
ghost use Rattle.hy_core.specs.declared.tree.Module.{Module};
ghost use Rattle.core_parse.specs.Answers.{Gives, IfRefused};
ghost use Rattle.core_parse.specs.code.Pushdown.{run, start};
ghost use Rattle.core_parse.specs.code.Verdicts.{GivesText, behind, place_of, refused_as, verdict};
ghost use Rattle.hy_core.specs.declared.refusal.RefusalKind.TheVariants as kinds;

use crate::answer::{ReadAnswer, Refused, RefusedToken, TokenAnswer};
use crate::run::read_tokens;
use core_scan::lex;
use hy_core::{Ending, Lexeme, Module, RefusalKind};
use std::alloc::Global;

// The most bytes that a text has.
const MOST_BYTES: usize = 1 << 20;

/// The tree of a module's text, exactly where the grammar gives it one. The atoms and the variables
/// are numbered in the order in which the text has them first. Annotations, attributes and what is
/// named `'module_info'/0` or `/1` are dropped, and leave nothing in the tables.
///
/// A text that is no module is `Refused` with what is wrong first and the byte at which it begins,
/// or the length of the text where it ends early. A text of more than 2^20 bytes is refused as a
/// whole.
pub fn read_module(alloc: Global, bytes: &[u8]) -> Result<Module, ReadAnswer>
    // What is read is a module of this tree.
    ensures found { IfOk result (λ z. IsModuleText bytes.now z) }
    // The tree of a module is read, unless memory runs out.
    ensures only { (z : Module) → IsModuleText bytes.now z → Gives result (Ok z) }
    // A refusal names the first that is wrong, and its place.
    ensures refused { IfRefused result (λ kind place. IsRefusedText bytes.now kind place) }
    // The first that is wrong is refused, unless memory runs out.
    ensures exactly { (kind : RefusalKind) (place : ℕ) → IsRefusedText bytes.now kind place
        → Gives result (Err (kind, place)) }
{
    read_text(alloc, bytes)
}

fn refused(kind: RefusalKind, place: usize) -> Result<Module, ReadAnswer>
    ensures { Gives result (Err (kind, place)) }
{
    Err(ReadAnswer::Refused(Refused {
        kind,
        place: place as u64,
    }))
}

fn read_text(alloc: Global, bytes: &[u8]) -> Result<Module, ReadAnswer>
    ensures { GivesText result bytes.now }
{
    if bytes.len() > MOST_BYTES {
        return refused(RefusalKind::TooLong, MOST_BYTES);
    }
    let lexed = lex(alloc, bytes)?;
    read_lexemes(alloc, bytes.len(), lexed.lexemes.as_slice(), lexed.ending)
}

// The verdict on a text of so many bytes.
fn read_lexemes(
    alloc: Global,
    size: usize,
    lexemes: &[Lexeme],
    ending: Ending,
) -> Result<Module, ReadAnswer>
    requires within { AreWithin size lexemes.now }
    requires end { EndsWithin size ending }
    ensures { Gives result (verdict size lexemes.now ending (run 0 (tokens_in lexemes.now) start)) }
{
    match read_tokens(alloc, lexemes) {
        Ok(module) => match ending {
            Ending::Clean => Ok(module),
            _ => refused_behind(size, ending),
        },
        Err(TokenAnswer::Refused(token)) => refused_token(size, lexemes, ending, token),
        Err(TokenAnswer::Memory) => Err(ReadAnswer::Memory),
    }
}

// What the end of a text answers whose tokens aren't wrong and no module.
fn refused_behind(size: usize, ending: Ending) -> Result<Module, ReadAnswer>
    requires { EndsWithin size ending }
    ensures { Gives result (behind size ending (Err (kinds.Ended, size))) }
{
    match ending {
        Ending::Clean | Ending::Open => refused(RefusalKind::Ended, size),
        Ending::Bad(left) => refused(RefusalKind::BadToken, size - left),
    }
}

// What a token that isn't taken answers, by its place.
fn refused_token(
    size: usize,
    lexemes: &[Lexeme],
    ending: Ending,
    token: RefusedToken,
) -> Result<Module, ReadAnswer>
    requires within { AreWithin size lexemes.now }
    requires end { EndsWithin size ending }
    ensures { Gives result (refused_as size lexemes.now ending token.kind token.index) }
{
    match token.kind {
        RefusalKind::Ended => refused_behind(size, ending),
        kind => refused(kind, place_at(size, lexemes, token.index)),
    }
}

// The place of a token.
fn place_at(size: usize, lexemes: &[Lexeme], index: usize) -> usize
    ensures { result ≡ place_of size lexemes.now index }
{
    match lexemes.get(index) {
        Some(lexeme) => size.saturating_sub(lexeme.left),
        None => size,
    }
}
