ghost use Rattle.std.specs.Prelude.{◌≡◌, IfOk};
ghost use Rattle.core_build.specs.Steps.{GivesTop};
ghost use Rattle.core_build.specs.Tops.{has_pattern as has_pattern_on, top_atom, top_clauses, top_expr, top_exprs, top_functions, top_head, top_name, top_names, top_pattern, top_patterns, top_variable, top_variables};

use crate::fault::{StepFault, UNEXPECTED};
use crate::value::{Head, Value};
use hy_core::{Clause, Expr, FunName, Function, Pattern};
use sqlite_items::Items;
use stack::Stack;
use std::alloc::AllocError;

/// Takes an `Expr` off the stack.
pub fn pop_expr(values: &mut Stack<Value>) -> Result<Expr, StepFault>
    ensures { GivesTop result values.new (top_expr values.old) }
{
    match values.pop() {
        Some(Value::Expr(x)) => Ok(x),
        Some(other) => {
            drop(other);
            Err(UNEXPECTED)
        }
        None => Err(UNEXPECTED),
    }
}

/// Takes an `Exprs` off the stack.
pub fn pop_exprs(values: &mut Stack<Value>) -> Result<Items<Expr>, StepFault>
    ensures { GivesTop result values.new (top_exprs values.old) }
{
    match values.pop() {
        Some(Value::Exprs(x)) => Ok(x),
        Some(other) => {
            drop(other);
            Err(UNEXPECTED)
        }
        None => Err(UNEXPECTED),
    }
}

/// Takes a `Pattern` off the stack.
pub fn pop_pattern(values: &mut Stack<Value>) -> Result<Pattern, StepFault>
    ensures { GivesTop result values.new (top_pattern values.old) }
{
    match values.pop() {
        Some(Value::Pattern(x)) => Ok(x),
        Some(other) => {
            drop(other);
            Err(UNEXPECTED)
        }
        None => Err(UNEXPECTED),
    }
}

/// Takes a `Patterns` off the stack.
pub fn pop_patterns(values: &mut Stack<Value>) -> Result<Items<Pattern>, StepFault>
    ensures { GivesTop result values.new (top_patterns values.old) }
{
    match values.pop() {
        Some(Value::Patterns(x)) => Ok(x),
        Some(other) => {
            drop(other);
            Err(UNEXPECTED)
        }
        None => Err(UNEXPECTED),
    }
}

/// Takes a `Variable` off the stack.
pub fn pop_variable(values: &mut Stack<Value>) -> Result<u32, StepFault>
    ensures { GivesTop result values.new (top_variable values.old) }
{
    match values.pop() {
        Some(Value::Variable(x)) => Ok(x),
        Some(other) => {
            drop(other);
            Err(UNEXPECTED)
        }
        None => Err(UNEXPECTED),
    }
}

/// Takes a `Variables` off the stack.
pub fn pop_variables(values: &mut Stack<Value>) -> Result<Items<u32>, StepFault>
    ensures { GivesTop result values.new (top_variables values.old) }
{
    match values.pop() {
        Some(Value::Variables(x)) => Ok(x),
        Some(other) => {
            drop(other);
            Err(UNEXPECTED)
        }
        None => Err(UNEXPECTED),
    }
}

/// Takes a `Clauses` off the stack.
pub fn pop_clauses(values: &mut Stack<Value>) -> Result<Items<Clause>, StepFault>
    ensures { GivesTop result values.new (top_clauses values.old) }
{
    match values.pop() {
        Some(Value::Clauses(x)) => Ok(x),
        Some(other) => {
            drop(other);
            Err(UNEXPECTED)
        }
        None => Err(UNEXPECTED),
    }
}

/// Takes a `Functions` off the stack.
pub fn pop_functions(values: &mut Stack<Value>) -> Result<Items<Function>, StepFault>
    ensures { GivesTop result values.new (top_functions values.old) }
{
    match values.pop() {
        Some(Value::Functions(x)) => Ok(x),
        Some(other) => {
            drop(other);
            Err(UNEXPECTED)
        }
        None => Err(UNEXPECTED),
    }
}

/// Takes a `Name` off the stack.
pub fn pop_name(values: &mut Stack<Value>) -> Result<FunName, StepFault>
    ensures { GivesTop result values.new (top_name values.old) }
{
    match values.pop() {
        Some(Value::Name(x)) => Ok(x),
        Some(other) => {
            drop(other);
            Err(UNEXPECTED)
        }
        None => Err(UNEXPECTED),
    }
}

/// Takes a `Names` off the stack.
pub fn pop_names(values: &mut Stack<Value>) -> Result<Items<FunName>, StepFault>
    ensures { GivesTop result values.new (top_names values.old) }
{
    match values.pop() {
        Some(Value::Names(x)) => Ok(x),
        Some(other) => {
            drop(other);
            Err(UNEXPECTED)
        }
        None => Err(UNEXPECTED),
    }
}

/// Takes an `Atom` off the stack.
pub fn pop_atom(values: &mut Stack<Value>) -> Result<u32, StepFault>
    ensures { GivesTop result values.new (top_atom values.old) }
{
    match values.pop() {
        Some(Value::Atom(x)) => Ok(x),
        Some(other) => {
            drop(other);
            Err(UNEXPECTED)
        }
        None => Err(UNEXPECTED),
    }
}

/// Takes what stands for the name of a definition off the stack.
pub fn pop_head(values: &mut Stack<Value>) -> Result<Head, StepFault>
    ensures { GivesTop result values.new (top_head values.old) }
{
    match values.pop() {
        Some(Value::Name(name)) => Ok(Head::Name(name)),
        Some(Value::Dropped(before)) => Ok(Head::Dropped(before)),
        Some(other) => {
            drop(other);
            Err(UNEXPECTED)
        }
        None => Err(UNEXPECTED),
    }
}

/// Whether a pattern is on top, which stays there.
pub fn has_pattern(values: &mut Stack<Value>) -> Result<bool, AllocError>
    ensures { IfOk result (λ b. (b ≡ has_pattern_on values.old) × (values.new ≡ values.old)) }
{
    match values.pop() {
        Some(Value::Pattern(pattern)) => {
            values.push(Value::Pattern(pattern))?;
            Ok(true)
        }
        Some(other) => {
            values.push(other)?;
            Ok(false)
        }
        None => Ok(false),
    }
}
