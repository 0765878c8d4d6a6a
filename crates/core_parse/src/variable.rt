ghost use Rattle.core_parse.specs.code.Pushdown.{annotation_mark, bindings_moved, checked, variable_begun};
ghost use Rattle.core_parse.specs.code.Verdicts.{GivesState};

use crate::goal::{Closer, Goal};
use crate::interning::number_of;
use crate::level::inside;
use crate::state::State;
use core_build::{Form, Part, StepFault, UNEXPECTED, Value};
use hy_core::{Symbol, Token};

/// The first token of a variable that is bound, where an annotation round it has this level.
pub fn begin_variable(level: u32, token: &Token, state: &mut State) -> Result<(), StepFault>
    ensures { GivesState result state.new
        (checked (annotation_mark level token.now)
        (variable_begun level state.old.goals state.old.values state.old.tables token.now)) }
{
    match token {
        Token::Variable(name) => {
            let var = number_of(&mut state.tables.variables, name.as_slice())?;
            state.values.push(Value::Variable(var))?;
            Ok(())
        }
        Token::Symbol(Symbol::Open) => {
            let inner = inside(level)?;
            state
                .goals
                .push_all(&[Goal::Part(Part::Variable, inner), Goal::Note(level)])?;
            Ok(())
        }
        _ => Err(UNEXPECTED),
    }
}

/// The first token of the variables that values side by side are bound to.
pub fn begin_bindings(level: u32, token: &Token, state: &mut State) -> Result<(), StepFault>
    ensures { GivesState result state.new
        (checked (annotation_mark level token.now)
        (bindings_moved level state.old.goals state.old.values state.old.tables token.now)) }
{
    match token {
        Token::Symbol(Symbol::Less) => {
            state
                .goals
                .push(Goal::Parts(Part::Variable, level, Closer::Values))?;
            Ok(())
        }
        _ => {
            state.goals.push(Goal::Build(Form::OneVariable))?;
            begin_variable(level, token, state)
        }
    }
}
