ghost use Rattle.core_parse.specs.code.Pushdown.{annotation_mark, attribute_begun, checked, key_begun, value_begun, value_mark};
ghost use Rattle.core_parse.specs.code.Verdicts.{GivesState};

use crate::constant::begin_constant;
use crate::goal::Goal;
use crate::level::inside;
use crate::state::State;
use core_build::{StepFault, UNEXPECTED};
use hy_core::{Symbol, Token};

/// The first token of an attribute.
pub fn begin_attribute(level: u32, token: &Token, state: &mut State) -> Result<(), StepFault>
    ensures { GivesState result state.new
        (checked (annotation_mark level token.now)
        (attribute_begun level state.old.goals state.old.values state.old.tables token.now)) }
{
    state.goals.push_all(&[Goal::Symbol(Symbol::Equals), Goal::AttributeValue(level)])?;
    begin_key(level, token, state)
}

/// The first token of the key of an attribute.
pub fn begin_key(level: u32, token: &Token, state: &mut State) -> Result<(), StepFault>
    ensures { GivesState result state.new
        (checked (annotation_mark level token.now)
        (key_begun level state.old.goals state.old.values state.old.tables token.now)) }
{
    match token {
        Token::Atom(_) => Ok(()),
        Token::Symbol(Symbol::Open) => {
            let inner = inside(level)?;
            state
                .goals
                .push_all(&[Goal::Key(inner), Goal::Note(level)])?;
            Ok(())
        }
        _ => Err(UNEXPECTED),
    }
}

/// The first token of an attribute's value.
pub fn begin_value(level: u32, token: &Token, state: &mut State) -> Result<(), StepFault>
    ensures { GivesState result state.new
        (checked (value_mark level token.now)
        (value_begun level state.old.goals state.old.values state.old.tables token.now)) }
{
    match token {
        Token::Symbol(Symbol::Open) => {
            let inner = inside(level)?;
            state
                .goals
                .push_all(&[Goal::AttributeValue(inner), Goal::Note(level)])?;
            Ok(())
        }
        _ => begin_constant(level, token, state),
    }
}
