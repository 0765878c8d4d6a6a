ghost use Rattle.std.specs.Prelude.{◌≡◌, IfOk};
ghost use Rattle.hy_core.specs.Marks.{plain};
ghost use Rattle.core_parse.specs.code.Pushdown.{checked, clause_begun, clause_mark, clause_rest, clause_rest_moved, goal_moved, mark};
ghost use Rattle.core_parse.specs.code.Verdicts.{GivesState};
ghost use Rattle.core_parse.specs.declared.goal.Goal.TheVariants as g;

use crate::annotation::push_note_rest;
use crate::goal::{Closer, Goal};
use crate::level::inside;
use crate::pattern::begin_pattern;
use crate::state::State;
use crate::symbol::{has_symbol, want};
use core_build::{Form, Part, StepFault, Value, has_pattern, pop_pattern};
use hy_core::{Symbol, Token};
use sqlite_items::Items;
use std::alloc::{AllocError, Global};

/// The first token of a clause, or the keyword behind the last.
pub fn take_clauses(
    alloc: Global,
    level: u32,
    closer: Closer,
    token: &Token,
    state: &mut State,
) -> Result<(), StepFault>
    ensures { GivesState result state.new
        (checked (mark (g.Clauses level closer) token.now)
        (goal_moved (g.Clauses level closer) state.old.goals state.old.values
        state.old.tables token.now)) }
{
    if has_symbol(token, closer.symbol()) {
        return Ok(());
    }
    state.goals.push(Goal::Clauses(level, closer))?;
    begin_clause(alloc, level, false, token, state)
}

/// The first token of a clause whose patterns have this level.
pub fn begin_clause(
    alloc: Global,
    level: u32,
    inner: bool,
    token: &Token,
    state: &mut State,
) -> Result<(), StepFault>
    ensures { GivesState result state.new
        (checked (clause_mark level token.now)
        (clause_begun level inner state.old.goals state.old.values state.old.tables token.now)) }
{
    match token {
        Token::Symbol(Symbol::Open) => {
            let inside_note = inside(level)?;
            state.goals.push_all(&[
                Goal::Clause(inside_note, true),
                Goal::ClauseNote(level, inner),
            ])?;
            Ok(())
        }
        Token::Symbol(Symbol::Less) => {
            push_clause_rest(level, state)?;
            state.goals.push_all(&[
                Goal::Parts(Part::Pattern, level, Closer::Values),
                Goal::Symbol(Symbol::When),
            ])?;
            Ok(())
        }
        _ => {
            state.goals.push(Goal::ClauseRest(level, inner))?;
            begin_pattern(alloc, level, token, state)
        }
    }
}

/// The `when` of a clause, behind its one pattern.
pub fn take_clause_rest(
    alloc: Global,
    level: u32,
    token: &Token,
    state: &mut State,
) -> Result<(), StepFault>
    ensures { GivesState result state.new
        (checked (plain token.now) (clause_rest_moved level state.old.goals state.old.values
        state.old.tables token.now)) }
{
    want(token, Symbol::When)?;
    let pattern = pop_pattern(&mut state.values)?;
    let mut patterns = Items::new(alloc);
    patterns.push(pattern)?;
    state.values.push(Value::Patterns(patterns))?;
    push_clause_rest(level, state)?;
    Ok(())
}

/// A guard and a body are to be read.
pub fn push_clause_rest(level: u32, state: &mut State) -> Result<(), AllocError>
    ensures { IfOk result (λ _. state.new ≡ record {
      goals = clause_rest level state.old.goals;
      values = state.old.values;
      tables = state.old.tables;
    }) }
{
    state.goals.push_all(&[
        Goal::Part(Part::Expr, level),
        Goal::Symbol(Symbol::Arrow),
        Goal::Part(Part::Expr, level),
        Goal::Build(Form::Clause),
    ])
}

/// The bar of an annotation round a clause, or round a pattern with which one begins.
pub fn take_clause_note(
    level: u32,
    inner: bool,
    token: &Token,
    state: &mut State,
) -> Result<(), StepFault>
    ensures { GivesState result state.new
        (checked (plain token.now) (goal_moved (g.ClauseNote level inner) state.old.goals
        state.old.values state.old.tables token.now)) }
{
    want(token, Symbol::NoteBar)?;
    if has_pattern(&mut state.values)? {
        state
            .goals
            .push_all(&[Goal::Alias(level), Goal::ClauseRest(level, inner)])?;
    }
    push_note_rest(level, state)
}
