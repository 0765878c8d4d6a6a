ghost use Rattle.std.specs.Prelude.{◌≡◌, IfOk, Some, slice_get};
ghost use Rattle.hy_core.specs.PreludeModules.{the_module_lists};

use crate::build::{T, WalkAtoms, X, Y, apply, call, head_before, table_of, variable_names, walk};
use hy_core::{Expr, FunName, Function, Module};
use hy_terms::{Atoms, Memory};
use sqlite_items::Items;
use std::alloc::{AllocError, Global};

// The module's atoms, as places in `atom_names`.

const LISTS: u32 = 0;

const REVERSE: FunName = FunName { name: 1, arity: 1 };

const REVERSE_ONTO: FunName = FunName { name: 1, arity: 2 };

const APPEND: FunName = FunName { name: 2, arity: 2 };

const ERLANG: u32 = 4;

const WALK: WalkAtoms = WalkAtoms {
    truth: 3,
    erlang: ERLANG,
    error: 5,
    badarg: 6,
};

const PLUS_PLUS: u32 = 7;

#[tactic(auto, unfolding(hy_terms::specs::Naming::named))]
fn atom_names(alloc: Global) -> Result<Atoms, Memory>
    ensures { IfOk result (λ table. table ≡ the_module_lists.atoms) }
{
    table_of(
        alloc,
        &[
            b"lists", b"reverse", b"append", b"true", b"erlang", b"error", b"badarg", b"++",
        ],
    )
}

// `'reverse'/1 = fun (X) -> apply 'reverse'/2(X,[])`
fn reverse(alloc: Global) -> Result<Function, AllocError>
    ensures { IfOk result (λ f. slice_get the_module_lists.functions 0 ≡ Some f) }
{
    let args = vec![in alloc; Expr::Var(X), Expr::Nil]?;
    Ok(Function {
        name: REVERSE,
        params: Items::from_slice(alloc, &[X])?,
        body: apply(alloc, REVERSE_ONTO, args)?,
    })
}

// `'reverse'/2 = fun (X,Y) -> WALK`, with the step `apply 'reverse'/2(T,[H|Y])`
fn reverse_onto(alloc: Global) -> Result<Function, AllocError>
    ensures { IfOk result (λ f. slice_get the_module_lists.functions 1 ≡ Some f) }
{
    let args = vec![in alloc; Expr::Var(T), head_before(alloc, Expr::Var(Y))?]?;
    Ok(Function {
        name: REVERSE_ONTO,
        params: Items::from_slice(alloc, &[X, Y])?,
        body: walk(alloc, WALK, apply(alloc, REVERSE_ONTO, args)?)?,
    })
}

// `'append'/2 = fun (X,Y) -> call 'erlang':'++'(X,Y)`
fn append(alloc: Global) -> Result<Function, AllocError>
    ensures { IfOk result (λ f. slice_get the_module_lists.functions 2 ≡ Some f) }
{
    let args = vec![in alloc; Expr::Var(X), Expr::Var(Y)]?;
    Ok(Function {
        name: APPEND,
        params: Items::from_slice(alloc, &[X, Y])?,
        body: call(alloc, ERLANG, PLUS_PLUS, args)?,
    })
}

/// The module `'lists'`, with `'reverse'/1`, `'reverse'/2` and `'append'/2`.
pub fn module_lists(alloc: Global) -> Result<Module, Memory>
    ensures { IfOk result (λ m. m ≡ the_module_lists) }
{
    let functions = vec![in alloc; reverse(alloc)?, reverse_onto(alloc)?, append(alloc)?]?;
    Ok(Module {
        name: LISTS,
        exports: Items::from_slice(alloc, &[REVERSE, REVERSE_ONTO, APPEND])?,
        functions: Items::from_vec(functions),
        atoms: atom_names(alloc)?,
        variables: variable_names(alloc)?,
    })
}
