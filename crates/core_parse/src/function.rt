ghost use Rattle.core_parse.specs.code.Pushdown.{annotation_mark, arity_mark, body_begun, checked, definition_begun, function_arity_moved, function_begun, goal_moved, info_arity_moved, mark};
ghost use Rattle.core_parse.specs.code.Verdicts.{GivesState};
ghost use Rattle.core_parse.specs.declared.goal.Goal.TheVariants as g;

use crate::goal::{Closer, Goal};
use crate::interning::number_of;
use crate::level::inside;
use crate::name::names_info;
use crate::number::{OUT_OF_RANGE, arity};
use crate::state::State;
use crate::symbol::has_symbol;
use core_build::{Form, Part, StepFault, UNEXPECTED, Value, pop_atom};
use hy_core::{FunName, Sign, Symbol, Tables, Token};
use hy_terms::Atoms;
use std::alloc::Global;
use std::mem::replace;

/// The first token of a function of a `letrec`, or the keyword behind the last.
pub fn take_functions(level: u32, token: &Token, state: &mut State) -> Result<(), StepFault>
    ensures { GivesState result state.new
        (checked (mark (g.Functions level) token.now)
        (goal_moved (g.Functions level) state.old.goals state.old.values
        state.old.tables token.now)) }
{
    if has_symbol(token, Symbol::In) {
        return Ok(());
    }
    state.goals.push_all(&[
        Goal::Symbol(Symbol::Equals),
        Goal::FunctionBody(level),
        Goal::Build(Form::Function),
        Goal::Functions(level),
    ])?;
    begin_function_name(level, token, state)
}

/// The first token of the name of a `letrec` function.
pub fn begin_function_name(level: u32, token: &Token, state: &mut State) -> Result<(), StepFault>
    ensures { GivesState result state.new
        (checked (annotation_mark level token.now)
        (function_begun level state.old.goals state.old.values state.old.tables token.now)) }
{
    match token {
        Token::Atom(text) => {
            let atom = number_of(&mut state.tables.atoms, text.as_slice())?;
            state.values.push(Value::Atom(atom))?;
            state
                .goals
                .push_all(&[Goal::Symbol(Symbol::Slash), Goal::FunctionArity])?;
            Ok(())
        }
        Token::Symbol(Symbol::Open) => {
            let inner = inside(level)?;
            state
                .goals
                .push_all(&[Goal::FunctionName(inner), Goal::Note(level)])?;
            Ok(())
        }
        _ => Err(UNEXPECTED),
    }
}

/// The first token of a definition of a module, or the keyword behind the last.
pub fn take_definitions(level: u32, token: &Token, state: &mut State) -> Result<(), StepFault>
    ensures { GivesState result state.new
        (checked (mark (g.Definitions level) token.now)
        (goal_moved (g.Definitions level) state.old.goals state.old.values
        state.old.tables token.now)) }
{
    if has_symbol(token, Symbol::End) {
        return Ok(());
    }
    state.goals.push_all(&[
        Goal::Symbol(Symbol::Equals),
        Goal::FunctionBody(level),
        Goal::Build(Form::Definition),
        Goal::Definitions(level),
    ])?;
    begin_definition_name(level, token, state)
}

/// The first token of the name of a definition in a module. The number of `'module_info'` is put
/// off until its arity tells whether it is kept.
pub fn begin_definition_name(level: u32, token: &Token, state: &mut State) -> Result<(), StepFault>
    ensures { GivesState result state.new
        (checked (annotation_mark level token.now)
        (definition_begun level state.old.goals state.old.values state.old.tables token.now)) }
{
    match token {
        Token::Atom(text) => {
            if names_info(text.as_slice()) {
                state
                    .goals
                    .push_all(&[Goal::Symbol(Symbol::Slash), Goal::InfoArity])?;
                return Ok(());
            }
            let atom = number_of(&mut state.tables.atoms, text.as_slice())?;
            state.values.push(Value::Atom(atom))?;
            state
                .goals
                .push_all(&[Goal::Symbol(Symbol::Slash), Goal::FunctionArity])?;
            Ok(())
        }
        Token::Symbol(Symbol::Open) => {
            let inner = inside(level)?;
            state
                .goals
                .push_all(&[Goal::DefinitionName(inner), Goal::Note(level)])?;
            Ok(())
        }
        _ => Err(UNEXPECTED),
    }
}

/// The arity of a function that is defined.
pub fn take_function_arity(token: &Token, state: &mut State) -> Result<(), StepFault>
    ensures { GivesState result state.new
        (checked (arity_mark token.now)
        (function_arity_moved state.old.goals state.old.values state.old.tables token.now)) }
{
    match token {
        Token::Integer(Sign::Absent, digits) => {
            let name = pop_atom(&mut state.values)?;
            let arity = arity(digits.as_slice()).ok_or(OUT_OF_RANGE)?;
            state.values.push(Value::Name(FunName { name, arity }))?;
            Ok(())
        }
        _ => Err(UNEXPECTED),
    }
}

/// The arity of a definition of `'module_info'`, which is dropped where it is 0 or 1: its names
/// then go into tables of their own.
pub fn take_info_arity(alloc: Global, token: &Token, state: &mut State) -> Result<(), StepFault>
    ensures { GivesState result state.new
        (checked (arity_mark token.now)
        (info_arity_moved state.old.goals state.old.values state.old.tables token.now)) }
{
    match token {
        Token::Integer(Sign::Absent, digits) => {
            let arity = arity(digits.as_slice()).ok_or(OUT_OF_RANGE)?;
            if arity <= 1 {
                let own = Tables {
                    atoms: Atoms::new(alloc),
                    variables: Atoms::new(alloc),
                };
                let before = replace(&mut state.tables, own);
                state.values.push(Value::Dropped(before))?;
                return Ok(());
            }
            let name = number_of(&mut state.tables.atoms, b"module_info")?;
            state.values.push(Value::Name(FunName { name, arity }))?;
            Ok(())
        }
        _ => Err(UNEXPECTED),
    }
}

/// The first token of the parameters and the body of a definition.
pub fn begin_body(level: u32, token: &Token, state: &mut State) -> Result<(), StepFault>
    ensures { GivesState result state.new
        (checked (annotation_mark level token.now)
        (body_begun level state.old.goals state.old.values state.old.tables token.now)) }
{
    match token {
        Token::Symbol(Symbol::Fun) => {
            state.goals.push_all(&[
                Goal::Symbol(Symbol::Open),
                Goal::Parts(Part::Variable, level, Closer::Arguments),
                Goal::Symbol(Symbol::Arrow),
                Goal::Part(Part::Expr, level),
            ])?;
            Ok(())
        }
        Token::Symbol(Symbol::Open) => {
            let inner = inside(level)?;
            state
                .goals
                .push_all(&[Goal::FunctionBody(inner), Goal::Note(level)])?;
            Ok(())
        }
        _ => Err(UNEXPECTED),
    }
}
