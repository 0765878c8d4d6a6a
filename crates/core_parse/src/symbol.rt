ghost use Rattle.std.specs.Prelude.{◌≡◌, MatchResult, false, true};
ghost use Rattle.hy_core.specs.declared.refusal.RefusalKind.TheVariants.{Unexpected};
ghost use Rattle.core_build.specs.declared.fault.StepFault.TheVariants.{Refused};
ghost use Rattle.core_parse.specs.code.Pushdown.{closing, is_next, is_symbol, symbol_in};

use crate::goal::Closer;
use core_build::{StepFault, UNEXPECTED};
use hy_core::{Symbol, Token};

impl Closer {
    /// The keyword or mark that closes.
    pub fn symbol(self) -> Symbol
        ensures { result ≡ closing self }
    {
        match self {
            Closer::Tuple => Symbol::CloseTuple,
            Closer::List => Symbol::CloseList,
            Closer::Arguments => Symbol::Close,
            Closer::Values => Symbol::Greater,
            Closer::Case => Symbol::End,
            Closer::Receive => Symbol::After,
        }
    }
}

/// The keyword or mark that a token is.
pub fn symbol_of(token: &Token) -> Option<Symbol>
    ensures { result ≡ symbol_in token.now }
{
    match token {
        Token::Symbol(symbol) => Some(*symbol),
        _ => None,
    }
}

/// Whether the next token is this symbol.
pub fn is(next: Option<Symbol>, symbol: Symbol) -> bool
    ensures { result ≡ is_next symbol next }
{
    match next {
        Some(found) => found == symbol,
        None => false,
    }
}

/// Whether a token is this keyword or mark.
pub fn has_symbol(token: &Token, symbol: Symbol) -> bool
    ensures { result ≡ is_symbol symbol token.now }
{
    match token {
        Token::Symbol(found) => *found == symbol,
        _ => false,
    }
}

/// Takes a keyword or a mark.
pub fn want(token: &Token, symbol: Symbol) -> Result<(), StepFault>
    ensures { MatchResult result (λ _. is_symbol symbol token.now ≡ true)
        (λ e. (e ≡ Refused Unexpected) × (is_symbol symbol token.now ≡ false)) }
{
    if has_symbol(token, symbol) {
        Ok(())
    } else {
        Err(UNEXPECTED)
    }
}
