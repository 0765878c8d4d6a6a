ghost use Rattle.std.specs.Prelude.{◌≡◌, IfOk};
ghost use Rattle.hy_core.specs.declared.tree.Expr.TheViews.{out-Expr};
ghost use Rattle.core_walk.specs.First.{IsFaultOf, IsFirst};
ghost use Rattle.core_lint.specs.code.ForbiddenForms.{is_applied as is_place_applied, is_atom as is_one_atom, is_for_timeout as is_place_for_timeout, is_name as is_one_name, is_spawn as is_built_in_spawn, is_spawnable as are_spawnable, is_timeout as is_one_timeout, is_written_list as is_list_written, own_form as own_form_of, subset, spawn_form as spawn_form_of, timeout_form as timeout_form_of, unless as unless_so};

use crate::guard_form::{has_guard_form, is_whole_guard};
use crate::on_exprs::{ExprCheck, first_in_exprs};
use core_names::{BuiltIn, atom_of, called, is_match_fail};
use core_walk::{Demand, Position, is_nil};
use hy_core::{Expr, Form, LintFault, Module, Place, Program};
use hy_terms::Memory;
use std::alloc::Global;

/// Forms outside the subset.
struct Subset;

fn is_applied(place: Place) -> bool
    ensures { result ≡ is_place_applied place }
{
    match place {
        Place::Applied => true,
        Place::Anywhere | Place::Timeout | Place::WholeGuard => false,
    }
}

fn is_for_timeout(place: Place) -> bool
    ensures { result ≡ is_place_for_timeout place }
{
    match place {
        Place::Timeout => true,
        Place::Anywhere | Place::Applied | Place::WholeGuard => false,
    }
}

fn is_name(expr: &Expr) -> bool
    ensures { result ≡ is_one_name (out-Expr expr.now) }
{
    matches!(expr, Expr::Name(_))
}

fn is_atom(expr: &Expr) -> bool
    ensures { result ≡ is_one_atom expr.now }
{
    atom_of(expr).is_some()
}

fn unless(is_so: bool, form: Form) -> Option<Form>
    ensures { result ≡ unless_so is_so form }
{
    if is_so { None } else { Some(form) }
}

// The form that an expression has by what it is.
fn own_form(names: &Module, place: Place, expr: &Expr) -> Option<Form>
    ensures { result ≡ own_form_of names.now place (out-Expr expr.now) }
{
    match expr {
        Expr::Name(_) => unless(is_applied(place), Form::Name),
        Expr::Apply { what, args: _ } => unless(is_name(what.get()), Form::Apply),
        Expr::Call {
            module,
            name,
            args: _,
        } => unless(is_atom(module.get()) && is_atom(name.get()), Form::Call),
        Expr::Primop { name, args } => {
            unless(is_match_fail(names, *name, args.len()), Form::Primop)
        }
        Expr::Try {
            value: _,
            vars,
            body,
            catch_vars,
            catch_body,
        } => {
            let is_guard = is_whole_guard(place)
                && has_guard_form(
                    names,
                    vars.as_slice(),
                    body.get(),
                    catch_vars.as_slice(),
                    catch_body.get(),
                );
            unless(is_guard, Form::Try)
        }
        Expr::Catch(_) => Some(Form::Catch),
        Expr::Fun { .. } => Some(Form::Fun),
        _ => None,
    }
}

// Whether an expression is the timeout 0 or 'infinity'.
fn is_timeout(names: &Module, expr: &Expr) -> bool
    ensures { result ≡ is_one_timeout names.now (out-Expr expr.now) }
{
    match expr {
        Expr::Int(n) => *n == 0,
        Expr::Atom(atom) => names.atoms.text_of(*atom) == b"infinity".as_slice(),
        _ => false,
    }
}

fn timeout_form(names: &Module, place: Place, expr: &Expr) -> Option<Form>
    ensures { result ≡ timeout_form_of names.now place (out-Expr expr.now) }
{
    if is_for_timeout(place) {
        unless(is_timeout(names, expr), Form::Timeout)
    } else {
        None
    }
}

fn is_spawn(built_in: Option<BuiltIn>) -> bool
    ensures { result ≡ is_built_in_spawn built_in }
{
    match built_in {
        Some(BuiltIn::Spawn) => true,
        _ => false,
    }
}

// Whether an expression is nil or a list notation that ends in nil.
fn is_written_list(expr: &Expr) -> bool
    ensures { result ≡ is_list_written (out-Expr expr.now) }
{
    match expr {
        Expr::Nil => true,
        Expr::List {
            site: _,
            heads: _,
            tail,
        } => is_nil(tail.get()),
        _ => false,
    }
}

// Whether these are a module, a function and a list written out.
fn is_spawnable(args: &[Expr]) -> bool
    ensures { result ≡ are_spawnable args.now }
{
    match args {
        [module, name, list] => is_atom(module) && is_atom(name) && is_written_list(list),
        _ => false,
    }
}

fn spawn_form(names: &Module, expr: &Expr) -> Option<Form>
    ensures { result ≡ spawn_form_of names.now (out-Expr expr.now) }
{
    match expr {
        Expr::Call { module, name, args } => {
            if is_spawn(called(&names.atoms, module.get(), name.get(), args.len())) {
                unless(is_spawnable(args.as_slice()), Form::Spawn)
            } else {
                None
            }
        }
        _ => None,
    }
}

impl ExprCheck for Subset {
    ghost expr_forms = { λ _. subset.of_expr };

    fn fault(
        &self,
        names: &Module,
        expr: &Expr,
        _at: &Position,
        demand: Demand,
    ) -> Result<Option<Form>, Memory> {
        if let Some(form) = own_form(names, demand.place, expr) {
            return Ok(Some(form));
        }
        if let Some(form) = timeout_form(names, demand.place, expr) {
            return Ok(Some(form));
        }
        Ok(spawn_form(names, expr))
    }
}

/// The first fault of kind 7: a form outside the subset.
pub fn forbidden_form(alloc: Global, program: &Program) -> Result<Option<LintFault>, Memory>
    ensures { IfOk result (IsFirst (IsFaultOf program.now 7)) }
{
    first_in_exprs(alloc, &Subset, 7, program)
}
