ghost use Rattle.std.specs.Prelude.{◌≡◌, IfOk};
ghost use Rattle.core_build.specs.Steps.{GivesWhere};
ghost use Rattle.core_build.specs.Trees.{added, atom_built, closed, name_added, names_kept, opened};
ghost use Rattle.core_build.specs.code.Forms.{expr_added, exprs_closed, pattern_added, patterns_closed, variable_added};

use crate::fault::{StepFault, UNEXPECTED};
use crate::form::Part;
use crate::join::{list_of, pattern_list_of};
use crate::pop::{
    pop_atom, pop_expr, pop_exprs, pop_names, pop_pattern, pop_patterns, pop_variable,
    pop_variables,
};
use crate::value::Value;
use hy_core::{Expr, FunName, Pattern};
use sqlite_items::Items;
use stack::Stack;
use std::alloc::{AllocError, Global};

/// Puts the empty list of such parts on the stack.
pub fn open_parts(alloc: Global, part: Part, values: &mut Stack<Value>) -> Result<(), AllocError>
    ensures { IfOk result (λ _. values.new ≡ opened part values.old) }
{
    match part {
        Part::Expr => values.push(Value::Exprs(Items::new(alloc))),
        Part::Pattern => values.push(Value::Patterns(Items::new(alloc))),
        Part::Variable => values.push(Value::Variables(Items::new(alloc))),
        Part::Export => values.push(Value::Names(Items::new(alloc))),
        Part::Constant | Part::Attribute => Ok(()),
    }
}

fn add_expr(values: &mut Stack<Value>) -> Result<(), StepFault>
    ensures { GivesWhere result values.new (expr_added values.old) }
{
    let last = pop_expr(values)?;
    let mut parts = pop_exprs(values)?;
    parts.push(last)?;
    values.push(Value::Exprs(parts))?;
    Ok(())
}

fn add_pattern(values: &mut Stack<Value>) -> Result<(), StepFault>
    ensures { GivesWhere result values.new (pattern_added values.old) }
{
    let last = pop_pattern(values)?;
    let mut parts = pop_patterns(values)?;
    parts.push(last)?;
    values.push(Value::Patterns(parts))?;
    Ok(())
}

fn add_variable(values: &mut Stack<Value>) -> Result<(), StepFault>
    ensures { GivesWhere result values.new (variable_added values.old) }
{
    let last = pop_variable(values)?;
    let mut parts = pop_variables(values)?;
    parts.push(last)?;
    values.push(Value::Variables(parts))?;
    Ok(())
}

/// Puts the part that was read behind those before it.
pub fn add_part(part: Part, values: &mut Stack<Value>) -> Result<(), StepFault>
    ensures { GivesWhere result values.new (added part values.old) }
{
    match part {
        Part::Expr => add_expr(values),
        Part::Pattern => add_pattern(values),
        Part::Variable => add_variable(values),
        Part::Constant | Part::Export | Part::Attribute => Ok(()),
    }
}

fn close_exprs(alloc: Global, values: &mut Stack<Value>) -> Result<(), StepFault>
    ensures { GivesWhere result values.new (exprs_closed values.old) }
{
    let heads = pop_exprs(values)?;
    values.push(Value::Expr(list_of(alloc, heads, Expr::Nil)?))?;
    Ok(())
}

fn close_patterns(alloc: Global, values: &mut Stack<Value>) -> Result<(), StepFault>
    ensures { GivesWhere result values.new (patterns_closed values.old) }
{
    let heads = pop_patterns(values)?;
    values.push(Value::Pattern(pattern_list_of(alloc, heads, Pattern::Nil)?))?;
    Ok(())
}

/// Ends the list notation whose heads were read.
pub fn close_list(alloc: Global, part: Part, values: &mut Stack<Value>) -> Result<(), StepFault>
    ensures { GivesWhere result values.new (closed part values.old) }
{
    match part {
        Part::Expr => close_exprs(alloc, values),
        Part::Pattern => close_patterns(alloc, values),
        Part::Constant => Ok(()),
        Part::Variable | Part::Export | Part::Attribute => Err(UNEXPECTED),
    }
}

/// Turns the atom on top into an expression.
pub fn build_atom(values: &mut Stack<Value>) -> Result<(), StepFault>
    ensures { GivesWhere result values.new (atom_built values.old) }
{
    let atom = pop_atom(values)?;
    values.push(Value::Expr(Expr::Atom(atom)))?;
    Ok(())
}

/// Puts an exported name behind those before it.
pub fn add_name(name: FunName, values: &mut Stack<Value>) -> Result<(), StepFault>
    ensures { GivesWhere result values.new (name_added name values.old) }
{
    let mut names = pop_names(values)?;
    names.push(name)?;
    values.push(Value::Names(names))?;
    Ok(())
}

/// Leaves the exported names that are on top.
pub fn keep_names(values: &mut Stack<Value>) -> Result<(), StepFault>
    ensures { GivesWhere result values.new (names_kept values.old) }
{
    let names = pop_names(values)?;
    values.push(Value::Names(names))?;
    Ok(())
}
