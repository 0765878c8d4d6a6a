ghost use Rattle.std.specs.Prelude.{◌≡◌, map, Some, None, IfOk};
ghost use Rattle.hy_core.specs.Syntax.{Apply, Name, Var, syntax_of, syntaxes_of};
ghost use Rattle.lifted_functions.specs.code.CapturedLists.{captured_at};
ghost use Rattle.lifted_functions.specs.code.FunctionNumbers.{number_at};
ghost use Rattle.lifted_functions.specs.code.Lifting.{applied_by};
ghost use Rattle.lifted_program.specs.LetrecNumbers.{number_in};
ghost use Rattle.lifted_syntax.specs.LiftedSyntax.{passing};

use crate::captured_lists::listed;
use crate::function_numbers::number_of;
use crate::tables::Tables;
use hy_core::{Expr, FunName};
use hy_terms::Memory;
use letrec_names::LetrecNames;
use sqlite_items::{Boxed, Items};
use std::alloc::Global;

// Variables as arguments.
fn variable_args(alloc: Global, variables: &[u32]) -> Result<Items<Expr>, Memory>
    ensures { IfOk result (λ args. map syntax_of args ≡ map Var variables.now) }
{
    let mut args = Items::new(alloc);
    for variable in variables {
        args.push(Expr::Var(*variable))?;
    }
    Ok(args)
}

// Arguments behind variables.
fn behind_variables(
    alloc: Global,
    variables: &[u32],
    args: Items<Expr>,
) -> Result<Items<Expr>, Memory>
    ensures { IfOk result (λ all. syntaxes_of (map syntax_of all)
        ≡ passing variables.now (syntaxes_of (map syntax_of args))) }
{
    let mut all = variable_args(alloc, variables)?;
    all.append(args)?;
    Ok(all)
}

// An `apply` of a name.
fn apply_name(alloc: Global, name: FunName, args: Items<Expr>) -> Result<Expr, Memory>
    ensures { IfOk result (λ tree.
        syntax_of tree ≡ Apply (Name name) (syntaxes_of (map syntax_of args))) }
{
    let what = Boxed::new(alloc, Expr::Name(name))?;
    Ok(Expr::Apply { what, args })
}

// A call of the function of a letrec, which passes what that captures and then the arguments.
fn call_lifted(
    tables: &Tables,
    number: u32,
    name: FunName,
    args: Items<Expr>,
) -> Result<Expr, Memory>
    ensures { IfOk result (λ tree. syntax_of tree ≡ applied_by (captured_at tables.now.captured)
        name (Some number) None (syntaxes_of (map syntax_of args))) }
{
    let captured = listed(&tables.captured, number);
    let count = u32::try_from(captured.len()).map_err(|_| Memory)?;
    let arity = count.checked_add(name.arity).ok_or(Memory)?;
    let args = behind_variables(tables.alloc, captured, args)?;
    apply_name(
        tables.alloc,
        FunName {
            name: number,
            arity,
        },
        args,
    )
}

/// A call of an applied name, in a function of this module.
pub fn lifted_call(
    tables: &Tables,
    current: u32,
    reach: &LetrecNames,
    name: FunName,
    args: Items<Expr>,
) -> Result<Expr, Memory>
    ensures { IfOk result (λ tree. syntax_of tree ≡ applied_by (captured_at tables.now.captured)
        name (number_in reach.now name) (number_at tables.now.functions current name)
        (syntaxes_of (map syntax_of args))) }
{
    if let Some(number) = reach.number_of(name) {
        return call_lifted(tables, number, name, args);
    }
    let Some(number) = number_of(&tables.functions, current, name) else {
        return Ok(Expr::Name(name));
    };
    let name = FunName {
        name: number,
        arity: name.arity,
    };
    apply_name(tables.alloc, name, args)
}
