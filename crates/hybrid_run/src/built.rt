ghost use Rattle.std.specs.Prelude.{◌≡◌, ◌↔◌, ◌∷◌, [], ℕ, List, IsTrue};
ghost use Rattle.hybrid_run.specs.Built.{IsAny, HasText, IsBuilt, IsBuiltModule};
ghost use Rattle.hybrid_run.specs.Headline.{IsBuiltFor};
ghost use Rattle.hybrid_run.specs.code.Parts.{AreBuilt, IsAtomOf, IsBuiltUnder, IsOperation};
ghost use Rattle.hybrid_run.specs.declared.command.Mode.TheVariants.{Run};

use hy_core::{Expr, Module};
use hy_terms::Atoms;

/// Whether an accepted program of these modules is one that runs: there is one module, of one
/// function, whose body is of the six forms alone.
pub fn is_built(modules: &[Module]) -> bool
    ensures { IsTrue result ↔ IsBuiltFor Run modules.now }
{
    match modules {
        [module] => is_built_module(module),
        _ => false,
    }
}

// Whether a module has one function, whose body is of the six forms alone.
fn is_built_module(module: &Module) -> bool
    ensures { IsTrue result ↔ IsBuiltModule «module».now }
{
    match module.functions.as_slice() {
        [main] => is_of_forms(&module.atoms, &main.body),
        _ => false,
    }
}

// Whether an expression is of the six forms alone.
#[cycle(is_of_forms)]
fn is_of_forms(atoms: &Atoms, expr: &Expr) -> bool
    ensures { (around : List ℕ) → IsTrue result ↔ IsBuilt atoms.now IsAny around expr.now }
{
    match expr {
        Expr::Int(_) => true,
        Expr::Var(_) => true,
        Expr::Let { vars, value, body } => {
            if is_of_forms(atoms, value.get()) {
                is_of_forms_under(atoms, vars.as_slice(), body.get())
            } else {
                false
            }
        }
        Expr::Do { first, second } => {
            if is_of_forms(atoms, first.get()) {
                is_of_forms(atoms, second.get())
            } else {
                false
            }
        }
        Expr::Call { module, name, args } => {
            if is_operation(atoms, module.get(), name.get(), args.as_slice()) {
                are_of_forms(atoms, args.as_slice())
            } else {
                false
            }
        }
        _ => false,
    }
}

// Whether there is one variable, and the body of its `let` is of the six forms alone.
#[cycle(is_of_forms)]
fn is_of_forms_under(atoms: &Atoms, vars: &[u32], body: &Expr) -> bool
    ensures { (around : List ℕ) → IsTrue result ↔ IsBuiltUnder atoms.now around vars.now body.now }
{
    match vars {
        [_] => is_of_forms(atoms, body),
        _ => false,
    }
}

// Whether the one argument of `display` or the two of `+` are of the six forms alone.
#[cycle(is_of_forms)]
fn are_of_forms(atoms: &Atoms, args: &[Expr]) -> bool
    ensures { (around : List ℕ) → IsTrue result ↔ AreBuilt atoms.now around args.now }
{
    match args {
        [shown] => is_of_forms(atoms, shown),
        [left, right] => {
            if is_of_forms(atoms, left) {
                is_of_forms(atoms, right)
            } else {
                false
            }
        }
        _ => false,
    }
}

// Whether a call of this module and this name is `display` of one argument or `+` of two.
fn is_operation(atoms: &Atoms, module: &Expr, name: &Expr, args: &[Expr]) -> bool
    ensures { IsTrue result ↔ IsOperation atoms.now «module».now name.now args.now }
{
    match args {
        [_] => is_atom(atoms, module, b"erlang") && is_atom(atoms, name, b"display"),
        [_, _] => is_atom(atoms, module, b"erlang") && is_atom(atoms, name, b"+"),
        _ => false,
    }
}

// Whether an expression is an atom of this text.
fn is_atom(atoms: &Atoms, expr: &Expr, text: &[u8]) -> bool
    ensures { IsTrue result ↔ IsAtomOf atoms.now expr.now text.now }
{
    match expr {
        Expr::Atom(atom) => has_text(atoms, *atom, text),
        _ => false,
    }
}

fn has_text(atoms: &Atoms, atom: u32, text: &[u8]) -> bool
    ensures { IsTrue result ↔ HasText atoms.now atom text.now }
{
    atom < atoms.len() && atoms.text(atom) == text
}
