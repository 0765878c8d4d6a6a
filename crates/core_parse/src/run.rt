ghost use Rattle.std.specs.Prelude.{◌≡◌, IfOk};
ghost use Rattle.hy_core.specs.Reading.{tokens_in};
ghost use Rattle.core_parse.specs.code.Pushdown.{ended, ended_at, module_built, run, start, stepped};
ghost use Rattle.core_parse.specs.code.Verdicts.{GivesModule, GivesReading, GivesState};

use crate::answer::{RefusedToken, TokenAnswer};
use crate::goal::Goal;
use crate::settle::next_goal;
use crate::state::State;
use crate::step::take;
use crate::symbol::symbol_of;
use core_build::{StepFault, UNEXPECTED, Value, pop_atom, pop_functions, pop_names};
use hy_core::{Lexeme, Module, RefusalKind, Tables, Token};
use hy_terms::Atoms;
use stack::Stack;
use std::alloc::{AllocError, Global};

// A module is to be read, and nothing was read.
fn begin(alloc: Global) -> Result<State, AllocError>
    ensures { IfOk result (λ state. state ≡ start) }
{
    let mut goals = Stack::new(alloc);
    goals.push(Goal::Module(0))?;
    Ok(State {
        goals,
        values: Stack::new(alloc),
        tables: Tables {
            atoms: Atoms::new(alloc),
            variables: Atoms::new(alloc),
        },
    })
}

// Takes one token.
fn step(alloc: Global, token: &Token, state: &mut State) -> Result<(), StepFault>
    ensures { GivesState result state.new (stepped state.old token.now) }
{
    match next_goal(alloc, symbol_of(token), state)? {
        Some(goal) => take(alloc, goal, token, state),
        None => Err(UNEXPECTED),
    }
}

// The module whose parts were read.
fn build_module(values: Stack<Value>, tables: Tables) -> Result<Module, StepFault>
    ensures { GivesModule result (module_built values tables) }
{
    let mut values = values;
    let functions = pop_functions(&mut values)?;
    let exports = pop_names(&mut values)?;
    let name = pop_atom(&mut values)?;
    match values.pop() {
        None => Ok(Module {
            name,
            exports,
            functions,
            atoms: tables.atoms,
            variables: tables.variables,
        }),
        Some(other) => {
            drop(other);
            Err(UNEXPECTED)
        }
    }
}

// The module where no token is left.
fn finish(alloc: Global, state: State) -> Result<Module, StepFault>
    ensures { GivesModule result (ended state) }
{
    let mut state = state;
    match next_goal(alloc, None, &mut state)? {
        None => build_module(state.values, state.tables),
        Some(_) => Err(UNEXPECTED),
    }
}

// What the end of so many tokens answers.
fn end(alloc: Global, state: State, index: usize) -> Result<Module, TokenAnswer>
    ensures { GivesReading result (ended_at index (ended state)) }
{
    match finish(alloc, state) {
        Ok(module) => Ok(module),
        Err(StepFault::Memory) => Err(TokenAnswer::Memory),
        Err(StepFault::Refused(_)) => Err(TokenAnswer::Refused(RefusedToken {
            kind: RefusalKind::Ended,
            index,
        })),
    }
}

/// The tree of a module's tokens.
pub fn read_tokens(alloc: Global, lexemes: &[Lexeme]) -> Result<Module, TokenAnswer>
    ensures { GivesReading result (run 0 (tokens_in lexemes.now) start) }
{
    let Ok(mut state) = begin(alloc) else {
        return Err(TokenAnswer::Memory);
    };
    for (index, lexeme) in lexemes.iter().enumerate() {
        match step(alloc, &lexeme.token, &mut state) {
            Ok(()) => {}
            Err(StepFault::Memory) => return Err(TokenAnswer::Memory),
            Err(StepFault::Refused(kind)) => {
                return Err(TokenAnswer::Refused(RefusedToken { kind, index }));
            }
        }
    }
    end(alloc, state, lexemes.len())
}
