ghost use Rattle.std.specs.Prelude.{◌≡◌, IfOk};
ghost use Rattle.hy_core.specs.Marks.{at, plain, symbol as symbol_mark};
ghost use Rattle.hy_core.specs.Patterns.{string_pattern};
ghost use Rattle.hy_core.specs.declared.token.Token.TheVariants.{Symbol as SymbolToken};
ghost use Rattle.core_parse.specs.code.Pushdown.{alias_moved, aliased_by, checked, pattern_begun, pattern_opened};
ghost use Rattle.core_parse.specs.code.Verdicts.{GivesState};
ghost use Rattle.hy_core.specs.declared.token.Symbol.TheVariants as symbols;

use crate::goal::{Closer, Goal};
use crate::interning::number_of;
use crate::level::{deeper, inside};
use crate::number::{OUT_OF_RANGE, integer};
use crate::state::State;
use crate::symbol::want;
use core_build::{Form, Part, StepFault, UNEXPECTED, Value, pop_pattern};
use hy_core::{Pattern, Symbol, Text, Token};
use sqlite_items::Items;
use std::alloc::{AllocError, Global};

// A string, which is nil where it is empty.
fn string(alloc: Global, bytes: &[u8]) -> Result<Pattern, AllocError>
    ensures { IfOk result (λ x. x ≡ string_pattern bytes.now) }
{
    if bytes.is_empty() {
        return Ok(Pattern::Nil);
    }
    Ok(Pattern::Str(Text::from_vec(Vec::from_slice(alloc, bytes)?)))
}

/// The first token of a pattern of this level.
pub fn begin_pattern(
    alloc: Global,
    level: u32,
    token: &Token,
    state: &mut State,
) -> Result<(), StepFault>
    ensures { GivesState result state.new
        (checked (at level token.now) (pattern_begun level state.old.goals state.old.values
        state.old.tables token.now)) }
{
    match token {
        Token::Integer(sign, digits) => {
            inside(level)?;
            let n = integer(*sign, digits.as_slice()).ok_or(OUT_OF_RANGE)?;
            state.values.push(Value::Pattern(Pattern::Int(n)))?;
        }
        Token::Character(code) => {
            inside(level)?;
            let n = i64::from(*code);
            state.values.push(Value::Pattern(Pattern::Int(n)))?;
        }
        Token::Atom(text) => {
            inside(level)?;
            let atom = number_of(&mut state.tables.atoms, text.as_slice())?;
            state.values.push(Value::Pattern(Pattern::Atom(atom)))?;
        }
        Token::Str(text) => {
            inside(level)?;
            let x = string(alloc, text.as_slice())?;
            state.values.push(Value::Pattern(x))?;
        }
        Token::Variable(name) => {
            inside(level)?;
            let var = number_of(&mut state.tables.variables, name.as_slice())?;
            state.values.push(Value::Pattern(Pattern::Var(var)))?;
            state.goals.push(Goal::Alias(level))?;
        }
        Token::Symbol(symbol) => open_pattern(alloc, level, *symbol, state)?,
    }
    Ok(())
}

// The mark that begins a pattern of this level.
fn open_pattern(
    alloc: Global,
    level: u32,
    symbol: Symbol,
    state: &mut State,
) -> Result<(), StepFault>
    ensures { GivesState result state.new
        (checked (at level (SymbolToken symbol))
        (pattern_opened level state.old.goals state.old.values state.old.tables symbol)) }
{
    match symbol {
        Symbol::OpenList => {
            inside(level)?;
            state.values.push(Value::Patterns(Items::new(alloc)))?;
            state.goals.push(Goal::Heads(Part::Pattern, level))?;
        }
        Symbol::OpenTuple => {
            let inner = inside(level)?;
            state.goals.push_all(&[
                Goal::Parts(Part::Pattern, inner, Closer::Tuple),
                Goal::Build(Form::PatternTuple),
            ])?;
        }
        Symbol::Open => {
            let inner = inside(level)?;
            state.goals.push_all(&[
                Goal::Part(Part::Pattern, inner),
                Goal::Note(level),
                Goal::Alias(level),
            ])?;
        }
        _ => return Err(UNEXPECTED),
    }
    Ok(())
}

/// The `=` of an alias, behind its variable.
pub fn take_alias(level: u32, token: &Token, state: &mut State) -> Result<(), StepFault>
    ensures { GivesState result state.new
        (checked (plain token.now) (alias_moved level state.old.goals state.old.values
        state.old.tables token.now)) }
{
    want(token, Symbol::Equals)?;
    let pattern = pop_pattern(&mut state.values)?;
    alias_of(level, pattern, state)
}

// The rest of an alias is to be read, behind a pattern that has to be a variable.
fn alias_of(level: u32, pattern: Pattern, state: &mut State) -> Result<(), StepFault>
    ensures { GivesState result state.new
        (checked (symbol_mark symbols.Equals)
        (aliased_by level state.old.goals pattern state.old.values state.old.tables)) }
{
    match pattern {
        Pattern::Var(var) => {
            let inner = deeper(level)?;
            state.values.push(Value::Variable(var))?;
            state.goals.push_all(&[Goal::Part(Part::Pattern, inner), Goal::Build(Form::Alias)])?;
            Ok(())
        }
        other => {
            drop(other);
            Err(UNEXPECTED)
        }
    }
}
