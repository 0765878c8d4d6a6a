ghost use Rattle.hy_core.specs.Marks.{constant};
ghost use Rattle.hy_core.specs.declared.token.Token.TheVariants.{Symbol as SymbolToken};
ghost use Rattle.core_parse.specs.code.Pushdown.{checked, constant_begun, constant_opened};
ghost use Rattle.core_parse.specs.code.Verdicts.{GivesState};

use crate::goal::{Closer, Goal};
use crate::level::inside;
use crate::state::State;
use core_build::{Part, StepFault, UNEXPECTED};
use hy_core::{Symbol, Token};

/// The first token of a constant of this level, of which nothing is kept.
pub fn begin_constant(level: u32, token: &Token, state: &mut State) -> Result<(), StepFault>
    ensures { GivesState result state.new
        (checked (constant level token.now)
        (constant_begun level state.old.goals state.old.values state.old.tables token.now)) }
{
    match token {
        Token::Variable(_) => Err(UNEXPECTED),
        Token::Symbol(symbol) => open_constant(level, *symbol, state),
        _ => {
            inside(level)?;
            Ok(())
        }
    }
}

// The mark that begins a constant of this level.
fn open_constant(level: u32, symbol: Symbol, state: &mut State) -> Result<(), StepFault>
    ensures { GivesState result state.new
        (checked (constant level (SymbolToken symbol))
        (constant_opened level state.old.goals state.old.values state.old.tables symbol)) }
{
    match symbol {
        Symbol::OpenList => {
            inside(level)?;
            state.goals.push(Goal::Heads(Part::Constant, level))?;
        }
        Symbol::OpenTuple => {
            let inner = inside(level)?;
            state
                .goals
                .push(Goal::Parts(Part::Constant, inner, Closer::Tuple))?;
        }
        _ => return Err(UNEXPECTED),
    }
    Ok(())
}
