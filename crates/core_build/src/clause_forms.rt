ghost use Rattle.core_build.specs.Steps.{GivesWhere};
ghost use Rattle.core_build.specs.code.Forms.{alias_built, clause_built, defined, definition_built, function_added, function_built, functions_kept, one_variable_built, pattern_tuple_built};

use crate::fault::StepFault;
use crate::pop::{
    pop_clauses, pop_expr, pop_functions, pop_head, pop_name, pop_pattern, pop_patterns,
    pop_variable, pop_variables,
};
use crate::value::{Head, Value};
use hy_core::{Clause, Expr, FunName, Function, Pattern, Tables};
use sqlite_items::{Boxed, Items};
use stack::Stack;
use std::alloc::Global;

pub fn build_one_variable(alloc: Global, values: &mut Stack<Value>) -> Result<(), StepFault>
    ensures { GivesWhere result values.new (one_variable_built values.old) }
{
    let var = pop_variable(values)?;
    let mut vars = Items::new(alloc);
    vars.push(var)?;
    values.push(Value::Variables(vars))?;
    Ok(())
}

/// Puts a clause behind those before it.
pub fn build_clause(values: &mut Stack<Value>) -> Result<(), StepFault>
    ensures { GivesWhere result values.new (clause_built values.old) }
{
    let body = pop_expr(values)?;
    let guard = pop_expr(values)?;
    let patterns = pop_patterns(values)?;
    let mut clauses = pop_clauses(values)?;
    clauses.push(Clause {
        patterns,
        guard,
        body,
    })?;
    values.push(Value::Clauses(clauses))?;
    Ok(())
}

fn add_function(
    name: FunName,
    params: Items<u32>,
    body: Expr,
    values: &mut Stack<Value>,
) -> Result<(), StepFault>
    ensures { GivesWhere result values.new (function_added name params body values.old) }
{
    let mut functions = pop_functions(values)?;
    functions.push(Function { name, params, body })?;
    values.push(Value::Functions(functions))?;
    Ok(())
}

/// Puts a function of a `letrec` behind those before it.
pub fn build_function(values: &mut Stack<Value>) -> Result<(), StepFault>
    ensures { GivesWhere result values.new (function_built values.old) }
{
    let body = pop_expr(values)?;
    let params = pop_variables(values)?;
    let name = pop_name(values)?;
    add_function(name, params, body, values)
}

// Leaves the functions that are on top.
fn keep_functions(values: &mut Stack<Value>) -> Result<(), StepFault>
    ensures { GivesWhere result values.new (functions_kept values.old) }
{
    let functions = pop_functions(values)?;
    values.push(Value::Functions(functions))?;
    Ok(())
}

// Puts a definition of this name behind those before it, or goes back to the tables before a
// dropped one.
fn define(
    head: Head,
    params: Items<u32>,
    body: Expr,
    values: &mut Stack<Value>,
    tables: &mut Tables,
) -> Result<(), StepFault>
    ensures { GivesWhere result (values.new, tables.new)
        (defined head params body values.old tables.old) }
{
    match head {
        Head::Name(name) => add_function(name, params, body, values),
        Head::Dropped(before) => {
            keep_functions(values)?;
            *tables = before;
            Ok(())
        }
    }
}

/// Puts a definition behind those before it, or drops it with what its names added to the tables.
pub fn build_definition(values: &mut Stack<Value>, tables: &mut Tables) -> Result<(), StepFault>
    ensures { GivesWhere result (values.new, tables.new) (definition_built values.old tables.old) }
{
    let body = pop_expr(values)?;
    let params = pop_variables(values)?;
    let head = pop_head(values)?;
    define(head, params, body, values, tables)
}

pub fn build_pattern_tuple(values: &mut Stack<Value>) -> Result<(), StepFault>
    ensures { GivesWhere result values.new (pattern_tuple_built values.old) }
{
    let parts = pop_patterns(values)?;
    values.push(Value::Pattern(Pattern::Tuple(parts)))?;
    Ok(())
}

pub fn build_alias(alloc: Global, values: &mut Stack<Value>) -> Result<(), StepFault>
    ensures { GivesWhere result values.new (alias_built values.old) }
{
    let pattern = pop_pattern(values)?;
    let var = pop_variable(values)?;
    values.push(Value::Pattern(Pattern::Alias {
        var,
        pattern: Boxed::new(alloc, pattern)?,
    }))?;
    Ok(())
}
