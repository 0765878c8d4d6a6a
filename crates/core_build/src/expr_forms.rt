ghost use Rattle.core_build.specs.Steps.{GivesWhere};
ghost use Rattle.core_build.specs.code.Forms.{apply_built, call_built, case_built, catch_built, do_built, fun_built, let_built, letrec_built, primop_built, receive_built, try_built, try_built_of, tuple_built, values_built};

use crate::fault::StepFault;
use crate::pop::{pop_atom, pop_clauses, pop_expr, pop_exprs, pop_functions, pop_variables};
use crate::value::Value;
use hy_core::Expr;
use sqlite_items::{Boxed, Items};
use stack::Stack;
use std::alloc::Global;

pub fn build_tuple(values: &mut Stack<Value>) -> Result<(), StepFault>
    ensures { GivesWhere result values.new (tuple_built values.old) }
{
    let parts = pop_exprs(values)?;
    values.push(Value::Expr(Expr::Tuple { site: 0, parts }))?;
    Ok(())
}

pub fn build_values(values: &mut Stack<Value>) -> Result<(), StepFault>
    ensures { GivesWhere result values.new (values_built values.old) }
{
    let parts = pop_exprs(values)?;
    values.push(Value::Expr(Expr::Values(parts)))?;
    Ok(())
}

pub fn build_let(alloc: Global, values: &mut Stack<Value>) -> Result<(), StepFault>
    ensures { GivesWhere result values.new (let_built values.old) }
{
    let body = pop_expr(values)?;
    let value = pop_expr(values)?;
    let vars = pop_variables(values)?;
    values.push(Value::Expr(Expr::Let {
        vars,
        value: Boxed::new(alloc, value)?,
        body: Boxed::new(alloc, body)?,
    }))?;
    Ok(())
}

pub fn build_do(alloc: Global, values: &mut Stack<Value>) -> Result<(), StepFault>
    ensures { GivesWhere result values.new (do_built values.old) }
{
    let second = pop_expr(values)?;
    let first = pop_expr(values)?;
    values.push(Value::Expr(Expr::Do {
        first: Boxed::new(alloc, first)?,
        second: Boxed::new(alloc, second)?,
    }))?;
    Ok(())
}

pub fn build_case(alloc: Global, values: &mut Stack<Value>) -> Result<(), StepFault>
    ensures { GivesWhere result values.new (case_built values.old) }
{
    let clauses = pop_clauses(values)?;
    let value = pop_expr(values)?;
    values.push(Value::Expr(Expr::Case {
        value: Boxed::new(alloc, value)?,
        clauses,
    }))?;
    Ok(())
}

pub fn build_letrec(alloc: Global, values: &mut Stack<Value>) -> Result<(), StepFault>
    ensures { GivesWhere result values.new (letrec_built values.old) }
{
    let body = pop_expr(values)?;
    let functions = pop_functions(values)?;
    values.push(Value::Expr(Expr::Letrec {
        functions,
        body: Boxed::new(alloc, body)?,
    }))?;
    Ok(())
}

pub fn build_apply(alloc: Global, values: &mut Stack<Value>) -> Result<(), StepFault>
    ensures { GivesWhere result values.new (apply_built values.old) }
{
    let args = pop_exprs(values)?;
    let what = pop_expr(values)?;
    values.push(Value::Expr(Expr::Apply {
        what: Boxed::new(alloc, what)?,
        args,
    }))?;
    Ok(())
}

pub fn build_call(alloc: Global, values: &mut Stack<Value>) -> Result<(), StepFault>
    ensures { GivesWhere result values.new (call_built values.old) }
{
    let args = pop_exprs(values)?;
    let name = pop_expr(values)?;
    let module = pop_expr(values)?;
    values.push(Value::Expr(Expr::Call {
        module: Boxed::new(alloc, module)?,
        name: Boxed::new(alloc, name)?,
        args,
    }))?;
    Ok(())
}

pub fn build_primop(values: &mut Stack<Value>) -> Result<(), StepFault>
    ensures { GivesWhere result values.new (primop_built values.old) }
{
    let args = pop_exprs(values)?;
    let name = pop_atom(values)?;
    values.push(Value::Expr(Expr::Primop { name, args }))?;
    Ok(())
}

pub fn build_receive(alloc: Global, values: &mut Stack<Value>) -> Result<(), StepFault>
    ensures { GivesWhere result values.new (receive_built values.old) }
{
    let body = pop_expr(values)?;
    let timeout = pop_expr(values)?;
    let clauses = pop_clauses(values)?;
    values.push(Value::Expr(Expr::Receive {
        clauses,
        timeout: Boxed::new(alloc, timeout)?,
        body: Boxed::new(alloc, body)?,
    }))?;
    Ok(())
}

// What stands before the last part of a `try`.
fn build_try_of(
    alloc: Global,
    catch_vars: Items<u32>,
    catch_body: Boxed<Expr>,
    values: &mut Stack<Value>,
) -> Result<(), StepFault>
    ensures { GivesWhere result values.new (try_built_of catch_vars catch_body values.old) }
{
    let body = pop_expr(values)?;
    let vars = pop_variables(values)?;
    let value = pop_expr(values)?;
    values.push(Value::Expr(Expr::Try {
        value: Boxed::new(alloc, value)?,
        vars,
        body: Boxed::new(alloc, body)?,
        catch_vars,
        catch_body,
    }))?;
    Ok(())
}

pub fn build_try(alloc: Global, values: &mut Stack<Value>) -> Result<(), StepFault>
    ensures { GivesWhere result values.new (try_built values.old) }
{
    let catch_body = pop_expr(values)?;
    let catch_vars = pop_variables(values)?;
    build_try_of(alloc, catch_vars, Boxed::new(alloc, catch_body)?, values)
}

pub fn build_catch(alloc: Global, values: &mut Stack<Value>) -> Result<(), StepFault>
    ensures { GivesWhere result values.new (catch_built values.old) }
{
    let value = pop_expr(values)?;
    values.push(Value::Expr(Expr::Catch(Boxed::new(alloc, value)?)))?;
    Ok(())
}

pub fn build_fun(alloc: Global, values: &mut Stack<Value>) -> Result<(), StepFault>
    ensures { GivesWhere result values.new (fun_built values.old) }
{
    let body = pop_expr(values)?;
    let params = pop_variables(values)?;
    values.push(Value::Expr(Expr::Fun {
        params,
        body: Boxed::new(alloc, body)?,
    }))?;
    Ok(())
}
