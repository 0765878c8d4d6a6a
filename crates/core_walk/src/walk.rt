ghost use Rattle.std.specs.Prelude.{◌≡◌, ◌+◌, [], ◌∷◌, OnOk};
ghost use Rattle.hy_core.specs.Nodes.{AnExpr, node, nodes, clause_nodes, definition_nodes, pattern_nodes, at_place, binding, for_one, for_values, inside, is_nil_layer, names_of};
ghost use Rattle.hy_core.specs.declared.tree.Expr.TheViews.{out-Expr};
ghost use Rattle.hy_core.specs.NodeParts.{each_node, end_nodes, part_nodes};
ghost use Rattle.core_walk.specs.Walk.{Walks, context_of, form_at};

use crate::cases::needs_of_case;
use crate::check::Check;
use crate::patterns::bind_patterns;
use crate::position::{Demand, Position};
use crate::stop::{Found, Stop};
use core_tables::pass_patterns;
use hy_core::{Clause, Expr, Function, Module, Pattern, Place};
use hy_terms::Memory;

// Goes to the next node.
fn pass(at: &mut Position) -> Result<(), Memory>
    ensures { OnOk result (at.new ≡ record at.old { node = at.old.node + 1 }) }
{
    at.node = at.node.checked_add(1).ok_or(Memory)?;
    Ok(())
}

// Looks at the node of an expression.
fn visit<C: Check>(
    check: &C,
    names: &Module,
    at: &mut Position,
    demand: Demand,
    expr: &Expr,
) -> Result<(), Stop>
    ensures { Walks result (form_at (C.forms check.now) names.now)
        (node (AnExpr expr.now) (context_of at.old demand) ∷ []) at.old at.new }
{
    if let Some(form) = check.expr_fault(names, expr, at, demand)? {
        return Err(Stop::Found(Found {
            node: at.node,
            form,
        }));
    }
    pass(at)?;
    Ok(())
}

// Looks at the nodes of the patterns of a clause.
fn visit_patterns<C: Check>(
    check: &C,
    names: &Module,
    at: &mut Position,
    demand: Demand,
    patterns: &[Pattern],
) -> Result<(), Stop>
    ensures { Walks result (form_at (C.forms check.now) names.now)
        (pattern_nodes patterns.now (context_of at.old demand)) at.old at.new }
{
    if patterns.is_empty() {
        return Ok(());
    }
    if let Some(form) = check.patterns_fault(patterns)? {
        return Err(Stop::Found(Found {
            node: at.node,
            form,
        }));
    }
    pass_patterns(&mut at.node, patterns)?;
    Ok(())
}

/// Whether an expression is nil.
pub fn is_nil(expr: &Expr) -> bool
    ensures { result ≡ is_nil_layer (out-Expr expr.now) }
{
    matches!(expr, Expr::Nil)
}

/// Looks at the nodes of an expression, from the next one on, up to the first at which the check
/// fails.
#[cycle(walk)]
pub fn walk_expr<C: Check>(
    check: &C,
    names: &Module,
    at: &mut Position,
    demand: Demand,
    expr: &Expr,
) -> Result<(), Stop>
    ensures { Walks result (form_at (C.forms check.now) names.now)
        (nodes expr.now (context_of at.old demand)) at.old at.new }
{
    visit(check, names, at, demand, expr)?;
    walk_parts(check, names, at, demand, expr)
}

// Looks at the nodes of an expression behind its own.
#[cycle(walk)]
fn walk_parts<C: Check>(
    check: &C,
    names: &Module,
    at: &mut Position,
    demand: Demand,
    expr: &Expr,
) -> Result<(), Stop>
    ensures { Walks result (form_at (C.forms check.now) names.now)
        (part_nodes expr.now (context_of at.old demand)) at.old at.new }
{
    match expr {
        Expr::Int(_) | Expr::Atom(_) | Expr::Nil | Expr::Str(_) | Expr::Var(_) | Expr::Name(_) => {
            Ok(())
        }
        Expr::Tuple { site: _, parts } => walk_each(check, names, at, demand, parts.as_slice()),
        Expr::List {
            site: _,
            heads,
            tail,
        } => {
            walk_each(check, names, at, demand, heads.as_slice())?;
            walk_end(check, names, at, demand, tail.get())
        }
        Expr::Values(parts) => walk_each(check, names, at, demand, parts.as_slice()),
        Expr::Let { vars, value, body } => {
            walk_values(check, names, at, demand, vars.len(), value.get())?;
            walk_under(check, names, at, demand, vars.as_slice(), body.get())
        }
        Expr::Do { first, second } => {
            walk_values(check, names, at, demand, 1, first.get())?;
            walk_inside(check, names, at, demand, second.get())
        }
        Expr::Case { value, clauses } => {
            let needs = needs_of_case(clauses.as_slice());
            walk_values(check, names, at, demand, needs, value.get())?;
            walk_clauses(check, names, at, demand, clauses.as_slice())
        }
        Expr::Letrec { functions, body } => {
            let depth = at.locals.len();
            at.locals.define(functions.as_slice())?;
            walk_functions(check, names, at, demand, functions.as_slice())?;
            walk_inside(check, names, at, demand, body.get())?;
            at.locals.leave(depth);
            Ok(())
        }
        Expr::Apply { what, args } => {
            walk_place(check, names, at, demand, Place::Applied, what.get())?;
            walk_each(check, names, at, demand, args.as_slice())
        }
        Expr::Call { module, name, args } => {
            walk_values(check, names, at, demand, 1, module.get())?;
            walk_values(check, names, at, demand, 1, name.get())?;
            walk_each(check, names, at, demand, args.as_slice())
        }
        Expr::Primop { name: _, args } => walk_each(check, names, at, demand, args.as_slice()),
        Expr::Receive {
            clauses,
            timeout,
            body,
        } => {
            walk_clauses(check, names, at, demand, clauses.as_slice())?;
            walk_place(check, names, at, demand, Place::Timeout, timeout.get())?;
            walk_inside(check, names, at, demand, body.get())
        }
        Expr::Try {
            value,
            vars,
            body,
            catch_vars,
            catch_body,
        } => {
            walk_values(check, names, at, demand, vars.len(), value.get())?;
            walk_under(check, names, at, demand, vars.as_slice(), body.get())?;
            walk_under(
                check,
                names,
                at,
                demand,
                catch_vars.as_slice(),
                catch_body.get(),
            )
        }
        Expr::Catch(body) => walk_values(check, names, at, demand, 1, body.get()),
        Expr::Fun { params, body } => {
            walk_under(
                check,
                names,
                at,
                demand.for_values(1),
                params.as_slice(),
                body.get(),
            )
        }
    }
}

// Looks at the nodes of an expression that needs so many values.
#[cycle(walk)]
fn walk_values<C: Check>(
    check: &C,
    names: &Module,
    at: &mut Position,
    demand: Demand,
    needs: usize,
    expr: &Expr,
) -> Result<(), Stop>
    ensures { Walks result (form_at (C.forms check.now) names.now)
        (nodes expr.now (for_values needs (context_of at.old demand))) at.old at.new }
{
    walk_expr(check, names, at, demand.for_values(needs), expr)
}

// Looks at the nodes of an expression at a place of its own kind.
#[cycle(walk)]
fn walk_place<C: Check>(
    check: &C,
    names: &Module,
    at: &mut Position,
    demand: Demand,
    place: Place,
    expr: &Expr,
) -> Result<(), Stop>
    ensures { Walks result (form_at (C.forms check.now) names.now)
        (nodes expr.now (at_place place (context_of at.old demand))) at.old at.new }
{
    walk_expr(check, names, at, demand.at_place(place), expr)
}

// Looks at the nodes of an expression in the place of the whole.
#[cycle(walk)]
fn walk_inside<C: Check>(
    check: &C,
    names: &Module,
    at: &mut Position,
    demand: Demand,
    expr: &Expr,
) -> Result<(), Stop>
    ensures { Walks result (form_at (C.forms check.now) names.now)
        (nodes expr.now (inside (context_of at.old demand))) at.old at.new }
{
    walk_expr(check, names, at, demand.inside(), expr)
}

// Looks at the nodes of expressions that need one value each.
#[cycle(walk)]
fn walk_each<C: Check>(
    check: &C,
    names: &Module,
    at: &mut Position,
    demand: Demand,
    exprs: &[Expr],
) -> Result<(), Stop>
    ensures { Walks result (form_at (C.forms check.now) names.now)
        (each_node nodes exprs.now (for_one (context_of at.old demand))) at.old at.new }
{
    for expr in exprs {
        walk_values(check, names, at, demand, 1, expr)?;
    }
    Ok(())
}

// Looks at the nodes of the tail of a list notation.
#[cycle(walk)]
fn walk_end<C: Check>(
    check: &C,
    names: &Module,
    at: &mut Position,
    demand: Demand,
    tail: &Expr,
) -> Result<(), Stop>
    ensures { Walks result (form_at (C.forms check.now) names.now)
        (end_nodes tail.now (for_one (context_of at.old demand))) at.old at.new }
{
    if is_nil(tail) {
        Ok(())
    } else {
        walk_values(check, names, at, demand, 1, tail)
    }
}

// Looks at the nodes of an expression in reach of these variables.
#[cycle(walk)]
fn walk_under<C: Check>(
    check: &C,
    names: &Module,
    at: &mut Position,
    demand: Demand,
    variables: &[u32],
    expr: &Expr,
) -> Result<(), Stop>
    ensures { Walks result (form_at (C.forms check.now) names.now)
        (nodes expr.now (binding variables.now (context_of at.old demand))) at.old at.new }
{
    let depth = at.scope.len();
    at.scope.bind_all(variables)?;
    walk_inside(check, names, at, demand, expr)?;
    at.scope.leave(depth);
    Ok(())
}

// Looks at the nodes of clauses.
#[cycle(walk)]
fn walk_clauses<C: Check>(
    check: &C,
    names: &Module,
    at: &mut Position,
    demand: Demand,
    clauses: &[Clause],
) -> Result<(), Stop>
    ensures { Walks result (form_at (C.forms check.now) names.now)
        (each_node clause_nodes clauses.now (inside (context_of at.old demand))) at.old at.new }
{
    for clause in clauses {
        walk_clause(check, names, at, demand.inside(), clause)?;
    }
    Ok(())
}

// Looks at the nodes of a clause.
#[cycle(walk)]
fn walk_clause<C: Check>(
    check: &C,
    names: &Module,
    at: &mut Position,
    demand: Demand,
    clause: &Clause,
) -> Result<(), Stop>
    ensures { Walks result (form_at (C.forms check.now) names.now)
        (clause_nodes clause.now (context_of at.old demand)) at.old at.new }
{
    visit_patterns(check, names, at, demand, clause.patterns.as_slice())?;
    let depth = at.scope.len();
    bind_patterns(&mut at.scope, clause.patterns.as_slice())?;
    walk_expr(check, names, at, demand.guarding(), &clause.guard)?;
    walk_inside(check, names, at, demand, &clause.body)?;
    at.scope.leave(depth);
    Ok(())
}

// Looks at the nodes of the bodies of definitions.
#[cycle(walk)]
fn walk_functions<C: Check>(
    check: &C,
    names: &Module,
    at: &mut Position,
    demand: Demand,
    functions: &[Function],
) -> Result<(), Stop>
    ensures { Walks result (form_at (C.forms check.now) names.now)
        (each_node definition_nodes functions.now (inside (context_of at.old demand))) at.old
        at.new }
{
    for function in functions {
        walk_under(
            check,
            names,
            at,
            demand.for_values(1),
            function.params.as_slice(),
            &function.body,
        )?;
    }
    Ok(())
}
