use crate::bodies::{push_body, push_variables, push_words};
use crate::fault::CaseFault;
use crate::numbers::push_number;
use crate::tables::{linted_of, modules_of};
use core_lint::Linted;
use hy_core::Text;
use hy_terms::Atoms;
use lifted_syntax::LiftedFunction;
use lifting::lift;
use std::alloc::Global;

/// The functions of the lifted program of the modules of these texts, which has no fault, a line
/// each. Those of the prelude are left out.
pub fn lifted_answer(alloc: Global, texts: &[Text]) -> Result<Vec<u8>, CaseFault> {
    let modules = modules_of(alloc, texts)?;
    let linted = linted_of(alloc, modules)?;
    let given = given_functions(&linted);
    let lifted = lift(alloc, linted)?;
    let mut answer = Vec::new(alloc);
    let mut number: u32 = 0;
    for function in lifted.functions.as_slice() {
        if (function.origin as usize) < given {
            push_lifted(&mut answer, &lifted.atoms, number, function)?;
        }
        number = number.saturating_add(1);
    }
    Ok(answer)
}

/// How many functions the given modules have. Theirs have the first numbers.
fn given_functions(linted: &Linted) -> usize {
    let mut count: usize = 0;
    for module in linted.program.given.as_slice() {
        count = count.saturating_add(module.functions.len());
    }
    count
}

/// Appends a line with a function's number, its origin, the nodes of its events, its parameters and
/// its body.
fn push_lifted(
    out: &mut Vec<u8>,
    atoms: &Atoms,
    number: u32,
    function: &LiftedFunction,
) -> Result<(), CaseFault> {
    push_number(out, "f", number)?;
    push_number(out, " of f", function.origin)?;
    for node in function.nodes.as_slice() {
        push_number(out, " event ", *node)?;
    }
    push_variables(out, ": fun (", function.params.as_slice(), ") -> ")?;
    push_body(out, atoms, &function.body)?;
    push_words(out, "\n")
}
