ghost use Rattle.hy_core.specs.Marks.{at, plain};
ghost use Rattle.core_parse.specs.code.Pushdown.{checked, module_begun, name_moved};
ghost use Rattle.core_parse.specs.code.Verdicts.{GivesState};

use crate::goal::{Closer, Goal};
use crate::interning::number_of;
use crate::level::inside;
use crate::state::State;
use core_build::{Form, Part, StepFault, UNEXPECTED, Value};
use hy_core::{Symbol, Token};

/// The first token of a module of this level.
pub fn begin_module(level: u32, token: &Token, state: &mut State) -> Result<(), StepFault>
    ensures { GivesState result state.new
        (checked (at level token.now) (module_begun level state.old.goals state.old.values
        state.old.tables token.now)) }
{
    match token {
        Token::Symbol(Symbol::Module) => {
            let inner = inside(level)?;
            state.goals.push_all(&[
                Goal::ModuleName,
                Goal::Symbol(Symbol::OpenList),
                Goal::Parts(Part::Export, inner, Closer::List),
                Goal::Symbol(Symbol::Attributes),
                Goal::Symbol(Symbol::OpenList),
                Goal::Parts(Part::Attribute, inner, Closer::List),
                Goal::Build(Form::NoFunctions),
                Goal::Definitions(inner),
            ])?;
            Ok(())
        }
        Token::Symbol(Symbol::Open) => {
            let inner = inside(level)?;
            state
                .goals
                .push_all(&[Goal::Module(inner), Goal::Note(level)])?;
            Ok(())
        }
        _ => Err(UNEXPECTED),
    }
}

/// The name of a module.
pub fn take_module_name(token: &Token, state: &mut State) -> Result<(), StepFault>
    ensures { GivesState result state.new
        (checked (plain token.now)
        (name_moved state.old.goals state.old.values state.old.tables token.now)) }
{
    match token {
        Token::Atom(name) => {
            let atom = number_of(&mut state.tables.atoms, name.as_slice())?;
            state.values.push(Value::Atom(atom))?;
            Ok(())
        }
        _ => Err(UNEXPECTED),
    }
}
