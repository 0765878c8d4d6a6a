ghost use Rattle.std.specs.Prelude.{◌≡◌, IfOk, Some, slice_get};
ghost use Rattle.hy_core.specs.PreludeModules.{the_module_erlang};

use crate::build::{T, WalkAtoms, X, Y, apply, head_before, table_of, variable_names, walk};
use hy_core::{Expr, FunName, Function, Module};
use hy_terms::{Atoms, Memory};
use sqlite_items::Items;
use std::alloc::{AllocError, Global};

// The module's atoms, as places in `atom_names`.

const ERLANG: u32 = 0;

const PLUS_PLUS: FunName = FunName { name: 1, arity: 2 };

const WALK: WalkAtoms = WalkAtoms {
    truth: 2,
    erlang: ERLANG,
    error: 3,
    badarg: 4,
};

#[tactic(auto, unfolding(hy_terms::specs::Naming::named))]
fn atom_names(alloc: Global) -> Result<Atoms, Memory>
    ensures { IfOk result (λ table. table ≡ the_module_erlang.atoms) }
{
    table_of(alloc, &[b"erlang", b"++", b"true", b"error", b"badarg"])
}

// `'++'/2 = fun (X,Y) -> WALK`, with the step `[H|apply '++'/2(T,Y)]`
fn plus_plus(alloc: Global) -> Result<Function, AllocError>
    ensures { IfOk result (λ f. slice_get the_module_erlang.functions 0 ≡ Some f) }
{
    let rest = apply(
        alloc,
        PLUS_PLUS,
        vec![in alloc; Expr::Var(T), Expr::Var(Y)]?,
    )?;
    Ok(Function {
        name: PLUS_PLUS,
        params: Items::from_slice(alloc, &[X, Y])?,
        body: walk(alloc, WALK, head_before(alloc, rest)?)?,
    })
}

/// The module `'erlang'`, with `'++'/2`.
pub fn module_erlang(alloc: Global) -> Result<Module, Memory>
    ensures { IfOk result (λ m. m ≡ the_module_erlang) }
{
    Ok(Module {
        name: ERLANG,
        exports: Items::from_slice(alloc, &[PLUS_PLUS])?,
        functions: Items::from_vec(vec![in alloc; plus_plus(alloc)?]?),
        atoms: atom_names(alloc)?,
        variables: variable_names(alloc)?,
    })
}
