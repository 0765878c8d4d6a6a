ghost use Rattle.core_build.specs.Steps.{GivesWhere};
ghost use Rattle.core_build.specs.Trees.{built};
ghost use Rattle.core_build.specs.code.Forms.{joined_on};

use crate::clause_forms::{
    build_alias, build_clause, build_definition, build_function, build_one_variable,
    build_pattern_tuple,
};
use crate::expr_forms::{
    build_apply, build_call, build_case, build_catch, build_do, build_fun, build_let, build_letrec,
    build_primop, build_receive, build_try, build_tuple, build_values,
};
use crate::fault::{StepFault, UNEXPECTED};
use crate::form::{Form, Part};
use crate::join::{build_join, build_pattern_join};
use crate::value::Value;
use hy_core::Tables;
use sqlite_items::Items;
use stack::Stack;
use std::alloc::Global;

fn build_list(alloc: Global, part: Part, values: &mut Stack<Value>) -> Result<(), StepFault>
    ensures { GivesWhere result values.new (joined_on part values.old) }
{
    match part {
        Part::Expr => build_join(alloc, values),
        Part::Pattern => build_pattern_join(alloc, values),
        Part::Constant => Ok(()),
        Part::Variable | Part::Export | Part::Attribute => Err(UNEXPECTED),
    }
}

/// Builds a tree from the values on top, and puts it in their place.
pub fn build_form(
    alloc: Global,
    form: Form,
    values: &mut Stack<Value>,
    tables: &mut Tables,
) -> Result<(), StepFault>
    ensures { GivesWhere result (values.new, tables.new) (built form values.old tables.old) }
{
    match form {
        Form::OneVariable => build_one_variable(alloc, values),
        Form::Tuple => build_tuple(values),
        Form::Values => build_values(values),
        Form::Let => build_let(alloc, values),
        Form::Do => build_do(alloc, values),
        Form::NoClauses => Ok(values.push(Value::Clauses(Items::new(alloc)))?),
        Form::Case => build_case(alloc, values),
        Form::Letrec => build_letrec(alloc, values),
        Form::Apply => build_apply(alloc, values),
        Form::Call => build_call(alloc, values),
        Form::Primop => build_primop(values),
        Form::Receive => build_receive(alloc, values),
        Form::Try => build_try(alloc, values),
        Form::Catch => build_catch(alloc, values),
        Form::Fun => build_fun(alloc, values),
        Form::Clause => build_clause(values),
        Form::Function => build_function(values),
        Form::NoFunctions => Ok(values.push(Value::Functions(Items::new(alloc)))?),
        Form::Definition => build_definition(values, tables),
        Form::Join(part) => build_list(alloc, part, values),
        Form::PatternTuple => build_pattern_tuple(values),
        Form::Alias => build_alias(alloc, values),
    }
}
