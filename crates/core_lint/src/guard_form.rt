ghost use Rattle.std.specs.Prelude.{◌≡◌};
ghost use Rattle.hy_core.specs.declared.tree.Expr.TheViews.{out-Expr};
ghost use Rattle.core_lint.specs.code.GuardForm.{has_guard_form as is_of_guard_form, is_false as is_answer_false, is_variable as is_same_variable, is_whole_guard as is_guard_whole};

use hy_core::{Expr, Module, Place};

fn is_false(names: &Module, expr: &Expr) -> bool
    ensures { result ≡ is_answer_false names.now (out-Expr expr.now) }
{
    if let Expr::Atom(atom) = expr {
        names.atoms.text_of(*atom) == b"false".as_slice()
    } else {
        false
    }
}

fn is_variable(variable: u32, expr: &Expr) -> bool
    ensures { result ≡ is_same_variable variable (out-Expr expr.now) }
{
    if let Expr::Var(other) = expr {
        variable == *other
    } else {
        false
    }
}

/// Whether a `try` of these variables and bodies is the form that a guard may be.
pub fn has_guard_form(
    names: &Module,
    vars: &[u32],
    body: &Expr,
    caught: &[u32],
    answer: &Expr,
) -> bool
    ensures { result ≡ is_of_guard_form names.now vars.now (out-Expr body.now) caught.now
        (out-Expr answer.now) }
{
    match vars {
        [variable] => {
            is_variable(*variable, body)
                && ((caught.len() == 2 || caught.len() == 3) && is_false(names, answer))
        }
        _ => false,
    }
}

/// Whether a place is that of a whole guard.
pub fn is_whole_guard(place: Place) -> bool
    ensures { result ≡ is_guard_whole place }
{
    match place {
        Place::WholeGuard => true,
        Place::Anywhere | Place::Applied | Place::Timeout => false,
    }
}
