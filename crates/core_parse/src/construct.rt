ghost use Rattle.hy_core.specs.Marks.{at};
ghost use Rattle.hy_core.specs.declared.token.Symbol.TheVariants as symbols;
ghost use Rattle.hy_core.specs.declared.token.Token.TheVariants.{Symbol as SymbolToken};
ghost use Rattle.core_parse.specs.code.Pushdown.{checked, expr_opened};
ghost use Rattle.core_parse.specs.code.Verdicts.{GivesState};

use crate::goal::{Closer, Goal};
use crate::level::inside;
use crate::state::State;
use core_build::{Form, Part, StepFault, Value};
use hy_core::Symbol;
use sqlite_items::Items;
use std::alloc::Global;

/// A list notation, behind its bracket.
pub fn open_list(alloc: Global, level: u32, state: &mut State) -> Result<(), StepFault>
    ensures { GivesState result state.new
        (checked (at level (SymbolToken symbols.OpenList))
        (expr_opened level state.old.goals state.old.values state.old.tables symbols.OpenList)) }
{
    inside(level)?;
    state.values.push(Value::Exprs(Items::new(alloc)))?;
    state.goals.push(Goal::Heads(Part::Expr, level))?;
    Ok(())
}

/// A tuple, behind its brace.
pub fn open_tuple(level: u32, state: &mut State) -> Result<(), StepFault>
    ensures { GivesState result state.new
        (checked (at level (SymbolToken symbols.OpenTuple))
        (expr_opened level state.old.goals state.old.values state.old.tables symbols.OpenTuple)) }
{
    let inner = inside(level)?;
    state.goals.push_all(&[
        Goal::Parts(Part::Expr, inner, Closer::Tuple),
        Goal::Build(Form::Tuple),
    ])?;
    Ok(())
}

/// Behind `let`.
pub fn open_let(level: u32, state: &mut State) -> Result<(), StepFault>
    ensures { GivesState result state.new
        (checked (at level (SymbolToken symbols.Let))
        (expr_opened level state.old.goals state.old.values state.old.tables symbols.Let)) }
{
    let inner = inside(level)?;
    state.goals.push_all(&[
        Goal::Bindings(inner),
        Goal::Symbol(Symbol::Equals),
        Goal::Part(Part::Expr, inner),
        Goal::Symbol(Symbol::In),
        Goal::Part(Part::Expr, inner),
        Goal::Build(Form::Let),
    ])?;
    Ok(())
}

/// Values side by side, behind their `<`.
pub fn open_values(level: u32, state: &mut State) -> Result<(), StepFault>
    ensures { GivesState result state.new
        (checked (at level (SymbolToken symbols.Less))
        (expr_opened level state.old.goals state.old.values state.old.tables symbols.Less)) }
{
    let inner = inside(level)?;
    state.goals.push_all(&[
        Goal::Parts(Part::Expr, inner, Closer::Values),
        Goal::Build(Form::Values),
    ])?;
    Ok(())
}

/// Behind `do`.
pub fn open_do(level: u32, state: &mut State) -> Result<(), StepFault>
    ensures { GivesState result state.new
        (checked (at level (SymbolToken symbols.Do))
        (expr_opened level state.old.goals state.old.values state.old.tables symbols.Do)) }
{
    let inner = inside(level)?;
    state.goals.push_all(&[
        Goal::Part(Part::Expr, inner),
        Goal::Part(Part::Expr, inner),
        Goal::Build(Form::Do),
    ])?;
    Ok(())
}

/// Behind `case`.
pub fn open_case(level: u32, state: &mut State) -> Result<(), StepFault>
    ensures { GivesState result state.new
        (checked (at level (SymbolToken symbols.Case))
        (expr_opened level state.old.goals state.old.values state.old.tables symbols.Case)) }
{
    let inner = inside(level)?;
    state.goals.push_all(&[
        Goal::Part(Part::Expr, inner),
        Goal::Symbol(Symbol::Of),
        Goal::Build(Form::NoClauses),
        Goal::Clause(inner, false),
        Goal::Clauses(inner, Closer::Case),
        Goal::Build(Form::Case),
    ])?;
    Ok(())
}

/// Behind `letrec`.
pub fn open_letrec(alloc: Global, level: u32, state: &mut State) -> Result<(), StepFault>
    ensures { GivesState result state.new
        (checked (at level (SymbolToken symbols.Letrec))
        (expr_opened level state.old.goals state.old.values state.old.tables symbols.Letrec)) }
{
    let inner = inside(level)?;
    state.values.push(Value::Functions(Items::new(alloc)))?;
    state.goals.push_all(&[
        Goal::Functions(inner),
        Goal::Part(Part::Expr, inner),
        Goal::Build(Form::Letrec),
    ])?;
    Ok(())
}

/// Behind `apply`.
pub fn open_apply(level: u32, state: &mut State) -> Result<(), StepFault>
    ensures { GivesState result state.new
        (checked (at level (SymbolToken symbols.Apply))
        (expr_opened level state.old.goals state.old.values state.old.tables symbols.Apply)) }
{
    let inner = inside(level)?;
    state.goals.push_all(&[
        Goal::Part(Part::Expr, inner),
        Goal::Symbol(Symbol::Open),
        Goal::Parts(Part::Expr, inner, Closer::Arguments),
        Goal::Build(Form::Apply),
    ])?;
    Ok(())
}

/// Behind `call`.
pub fn open_call(level: u32, state: &mut State) -> Result<(), StepFault>
    ensures { GivesState result state.new
        (checked (at level (SymbolToken symbols.Call))
        (expr_opened level state.old.goals state.old.values state.old.tables symbols.Call)) }
{
    let inner = inside(level)?;
    state.goals.push_all(&[
        Goal::Part(Part::Expr, inner),
        Goal::Symbol(Symbol::Colon),
        Goal::Part(Part::Expr, inner),
        Goal::Symbol(Symbol::Open),
        Goal::Parts(Part::Expr, inner, Closer::Arguments),
        Goal::Build(Form::Call),
    ])?;
    Ok(())
}

/// Behind `primop`.
pub fn open_primop(level: u32, state: &mut State) -> Result<(), StepFault>
    ensures { GivesState result state.new
        (checked (at level (SymbolToken symbols.Primop))
        (expr_opened level state.old.goals state.old.values state.old.tables symbols.Primop)) }
{
    let inner = inside(level)?;
    state.goals.push_all(&[
        Goal::Primop(inner),
        Goal::Symbol(Symbol::Open),
        Goal::Parts(Part::Expr, inner, Closer::Arguments),
        Goal::Build(Form::Primop),
    ])?;
    Ok(())
}

/// Behind `receive`.
pub fn open_receive(alloc: Global, level: u32, state: &mut State) -> Result<(), StepFault>
    ensures { GivesState result state.new
        (checked (at level (SymbolToken symbols.Receive))
        (expr_opened level state.old.goals state.old.values state.old.tables symbols.Receive)) }
{
    let inner = inside(level)?;
    state.values.push(Value::Clauses(Items::new(alloc)))?;
    state.goals.push_all(&[
        Goal::Clauses(inner, Closer::Receive),
        Goal::Part(Part::Expr, inner),
        Goal::Symbol(Symbol::Arrow),
        Goal::Part(Part::Expr, inner),
        Goal::Build(Form::Receive),
    ])?;
    Ok(())
}

/// Behind `try`.
pub fn open_try(level: u32, state: &mut State) -> Result<(), StepFault>
    ensures { GivesState result state.new
        (checked (at level (SymbolToken symbols.Try))
        (expr_opened level state.old.goals state.old.values state.old.tables symbols.Try)) }
{
    let inner = inside(level)?;
    state.goals.push_all(&[
        Goal::Part(Part::Expr, inner),
        Goal::Symbol(Symbol::Of),
        Goal::Bindings(inner),
        Goal::Symbol(Symbol::Arrow),
        Goal::Part(Part::Expr, inner),
        Goal::Symbol(Symbol::Catch),
        Goal::Bindings(inner),
        Goal::Symbol(Symbol::Arrow),
        Goal::Part(Part::Expr, inner),
        Goal::Build(Form::Try),
    ])?;
    Ok(())
}

/// Behind `catch`.
pub fn open_catch(level: u32, state: &mut State) -> Result<(), StepFault>
    ensures { GivesState result state.new
        (checked (at level (SymbolToken symbols.Catch))
        (expr_opened level state.old.goals state.old.values state.old.tables symbols.Catch)) }
{
    let inner = inside(level)?;
    state
        .goals
        .push_all(&[Goal::Part(Part::Expr, inner), Goal::Build(Form::Catch)])?;
    Ok(())
}

/// Behind `fun`.
pub fn open_fun(level: u32, state: &mut State) -> Result<(), StepFault>
    ensures { GivesState result state.new
        (checked (at level (SymbolToken symbols.Fun))
        (expr_opened level state.old.goals state.old.values state.old.tables symbols.Fun)) }
{
    let inner = inside(level)?;
    state.goals.push_all(&[
        Goal::Symbol(Symbol::Open),
        Goal::Parts(Part::Variable, inner, Closer::Arguments),
        Goal::Symbol(Symbol::Arrow),
        Goal::Part(Part::Expr, inner),
        Goal::Build(Form::Fun),
    ])?;
    Ok(())
}

/// An annotated expression, behind its parenthesis.
pub fn open_annotated(level: u32, state: &mut State) -> Result<(), StepFault>
    ensures { GivesState result state.new
        (checked (at level (SymbolToken symbols.Open))
        (expr_opened level state.old.goals state.old.values state.old.tables symbols.Open)) }
{
    let inner = inside(level)?;
    state
        .goals
        .push_all(&[Goal::Part(Part::Expr, inner), Goal::Note(level)])?;
    Ok(())
}
