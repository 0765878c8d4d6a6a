ghost use Rattle.std.specs.Prelude.{◌≡◌, IfOk, None};
ghost use Rattle.core_walk.specs.First.{IsOutside, Tells, function_outcome, first_in_functions, first_in_modules};

use crate::check::Check;
use crate::function_names::FunctionNames;
use crate::position::{Demand, Position};
use crate::scope::Scope;
use crate::stop::{Found, Stop};
use crate::walk::walk_expr;
use hy_core::{Form, Function, LintFault, Module, Place};
use hy_terms::Memory;
use std::alloc::Global;

/// A place as a number of a fault.
pub fn number(place: usize) -> Result<u32, Memory>
    ensures { IfOk result (λ n. n ≡ place) }
{
    if place > u32::MAX as usize {
        return Err(Memory);
    }
    Ok(place as u32)
}

// The first node of a function at which the check fails, from where nothing is bound; where none
// fails, nothing is bound again. The position keeps its memory from one function to the next,
// however many variables a module has.
fn first_node<C: Check>(
    check: &C,
    names: &Module,
    at: &mut Position,
    place: usize,
    function: &Function,
) -> Result<Option<Found>, Memory>
    requires { IsOutside at.old }
    ensures found { IfOk result (λ found. Tells found
        (function_outcome (C.forms check.now) names.now place function.now)) }
    ensures outside { IfOk result (λ found. found ≡ None → IsOutside at.new) }
{
    if check.function_fault(names, place, function)? {
        return Ok(Some(Found {
            node: 0,
            form: Form::Absent,
        }));
    }
    at.node = 0;
    at.scope.bind_all(function.params.as_slice())?;
    let demand = Demand {
        needs: 1,
        in_guard: false,
        place: Place::Anywhere,
    };
    match walk_expr(check, names, at, demand, &function.body) {
        Ok(()) => {
            at.scope.leave(0);
            Ok(None)
        }
        Err(Stop::Found(found)) => Ok(Some(found)),
        Err(Stop::Memory) => Err(Memory),
    }
}

/// The first fault in the functions of the module at this place.
pub fn first_in_module<C: Check>(
    alloc: Global,
    check: &C,
    kind: u8,
    place: usize,
    names: &Module,
) -> Result<Option<LintFault>, Memory>
    ensures { IfOk result (λ fault. fault ≡ first_in_functions (C.forms check.now) kind place
        names.now 0 names.now.functions) }
{
    let mut at = Position {
        node: 0,
        scope: Scope::new(alloc),
        locals: FunctionNames::new(alloc),
    };
    let functions = names.functions.as_slice();
    for (j, function) in functions.iter().enumerate() {
        if let Some(found) = first_node(check, names, &mut at, j, function)? {
            return Ok(Some(LintFault {
                kind,
                module: number(place)?,
                function: number(j)?,
                node: found.node,
                form: found.form,
            }));
        }
    }
    Ok(None)
}

/// The first fault of this kind in the functions of modules.
pub fn first_in_program<C: Check>(
    alloc: Global,
    check: &C,
    kind: u8,
    modules: &[Module],
) -> Result<Option<LintFault>, Memory>
    ensures { IfOk result (λ fault. fault ≡ first_in_modules (C.forms check.now)
        kind 0 modules.now) }
{
    for (i, names) in modules.iter().enumerate() {
        let found = first_in_module(alloc, check, kind, i, names)?;
        if found.is_some() {
            return Ok(found);
        }
    }
    Ok(None)
}
