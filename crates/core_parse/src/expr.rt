ghost use Rattle.std.specs.Prelude.{◌≡◌, IfOk};
ghost use Rattle.hy_core.specs.Expressions.{string_expr};
ghost use Rattle.hy_core.specs.Marks.{at};
ghost use Rattle.hy_core.specs.declared.token.Token.TheVariants.{Symbol as SymbolToken};
ghost use Rattle.core_parse.specs.code.Pushdown.{annotation_mark, checked, expr_begun, expr_opened, primop_begun};
ghost use Rattle.core_parse.specs.code.Verdicts.{GivesState};

use crate::construct::{
    open_annotated, open_apply, open_call, open_case, open_catch, open_do, open_fun, open_let,
    open_letrec, open_list, open_primop, open_receive, open_try, open_tuple, open_values,
};
use crate::goal::Goal;
use crate::interning::number_of;
use crate::level::inside;
use crate::number::{OUT_OF_RANGE, integer};
use crate::state::State;
use core_build::{StepFault, UNEXPECTED, Value};
use hy_core::{Expr, Symbol, Text, Token};
use std::alloc::{AllocError, Global};

// A string, which is nil where it is empty.
fn string(alloc: Global, bytes: &[u8]) -> Result<Expr, AllocError>
    ensures { IfOk result (λ x. x ≡ string_expr bytes.now) }
{
    if bytes.is_empty() {
        return Ok(Expr::Nil);
    }
    Ok(Expr::Str(Text::from_vec(Vec::from_slice(alloc, bytes)?)))
}

/// The first token of an expression of this level.
pub fn begin_expr(
    alloc: Global,
    level: u32,
    token: &Token,
    state: &mut State,
) -> Result<(), StepFault>
    ensures { GivesState result state.new
        (checked (at level token.now) (expr_begun level state.old.goals state.old.values
        state.old.tables token.now)) }
{
    match token {
        Token::Integer(sign, digits) => {
            inside(level)?;
            let n = integer(*sign, digits.as_slice()).ok_or(OUT_OF_RANGE)?;
            state.values.push(Value::Expr(Expr::Int(n)))?;
        }
        Token::Character(code) => {
            inside(level)?;
            state.values.push(Value::Expr(Expr::Int(i64::from(*code))))?;
        }
        Token::Atom(text) => {
            inside(level)?;
            let atom = number_of(&mut state.tables.atoms, text.as_slice())?;
            state.values.push(Value::Atom(atom))?;
            state.goals.push(Goal::NameOrAtom)?;
        }
        Token::Str(text) => {
            inside(level)?;
            let x = string(alloc, text.as_slice())?;
            state.values.push(Value::Expr(x))?;
        }
        Token::Variable(name) => {
            inside(level)?;
            let var = number_of(&mut state.tables.variables, name.as_slice())?;
            state.values.push(Value::Expr(Expr::Var(var)))?;
        }
        Token::Symbol(symbol) => open_expr(alloc, level, *symbol, state)?,
    }
    Ok(())
}

// The keyword or mark that begins an expression of this level.
fn open_expr(alloc: Global, level: u32, symbol: Symbol, state: &mut State) -> Result<(), StepFault>
    ensures { GivesState result state.new
        (checked (at level (SymbolToken symbol))
        (expr_opened level state.old.goals state.old.values state.old.tables symbol)) }
{
    match symbol {
        Symbol::OpenList => open_list(alloc, level, state),
        Symbol::OpenTuple => open_tuple(level, state),
        Symbol::Let => open_let(level, state),
        Symbol::Less => open_values(level, state),
        Symbol::Do => open_do(level, state),
        Symbol::Case => open_case(level, state),
        Symbol::Letrec => open_letrec(alloc, level, state),
        Symbol::Apply => open_apply(level, state),
        Symbol::Call => open_call(level, state),
        Symbol::Primop => open_primop(level, state),
        Symbol::Receive => open_receive(alloc, level, state),
        Symbol::Try => open_try(level, state),
        Symbol::Catch => open_catch(level, state),
        Symbol::Fun => open_fun(level, state),
        Symbol::Open => open_annotated(level, state),
        _ => Err(UNEXPECTED),
    }
}

/// The first token of the name of a primitive operation.
pub fn begin_primop(level: u32, token: &Token, state: &mut State) -> Result<(), StepFault>
    ensures { GivesState result state.new
        (checked (annotation_mark level token.now)
        (primop_begun level state.old.goals state.old.values state.old.tables token.now)) }
{
    match token {
        Token::Atom(text) => {
            let atom = number_of(&mut state.tables.atoms, text.as_slice())?;
            state.values.push(Value::Atom(atom))?;
            Ok(())
        }
        Token::Symbol(Symbol::Open) => {
            let inner = inside(level)?;
            state
                .goals
                .push_all(&[Goal::Primop(inner), Goal::Note(level)])?;
            Ok(())
        }
        _ => Err(UNEXPECTED),
    }
}
