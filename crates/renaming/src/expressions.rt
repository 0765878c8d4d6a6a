ghost use Rattle.std.specs.Prelude.{◌≡◌, map, IfOk, OnOk};
ghost use Rattle.hy_core.specs.Scopes.{with_variables};
ghost use Rattle.hy_core.specs.Syntax.{syntax_of};
ghost use Rattle.lifted_program.specs.Renaming.{names_for};
ghost use Rattle.renaming.specs.RenamedSyntax.{
  clause_syntax,
  function_syntax,
  renamed_syntax,
  renamed_clause,
  renamed_definition,
};

use crate::patterns::{bind_all, copied_text, rename_patterns};
use crate::scope::Scope;
use hy_core::{Clause, Expr, Function};
use hy_terms::Memory;
use sqlite_items::{Boxed, Items};

// Variables and the expression in which they are bound.
#[derive(Drop)]
struct Bound {
    vars: Items<u32>,
    body: Boxed<Expr>,
}

/// An expression in which no binding stands in the scope of another of its variable.
#[cycle(rename)]
pub fn rename_expr(limit: u32, scope: &mut Scope, expr: &Expr) -> Result<Expr, Memory>
    ensures renamed { IfOk result (λ tree.
        syntax_of tree ≡ renamed_syntax limit scope.old (syntax_of expr.now)) }
    ensures scope { OnOk result (scope.new ≡ scope.old) }
{
    match expr {
        Expr::Int(value) => Ok(Expr::Int(*value)),
        Expr::Atom(atom) => Ok(Expr::Atom(*atom)),
        Expr::Nil => Ok(Expr::Nil),
        Expr::Str(text) => Ok(Expr::Str(copied_text(scope.allocator(), text)?)),
        Expr::Var(variable) => Ok(Expr::Var(scope.name_of(limit, *variable)?)),
        Expr::Name(name) => Ok(Expr::Name(*name)),
        Expr::Tuple { site, parts } => {
            let parts = rename_each(limit, scope, parts)?;
            Ok(Expr::Tuple { site: *site, parts })
        }
        Expr::List { site, heads, tail } => {
            let heads = rename_each(limit, scope, heads)?;
            let tail = rename_boxed(limit, scope, tail)?;
            Ok(Expr::List {
                site: *site,
                heads,
                tail,
            })
        }
        Expr::Values(parts) => Ok(Expr::Values(rename_each(limit, scope, parts)?)),
        Expr::Let { vars, value, body } => {
            let value = rename_boxed(limit, scope, value)?;
            let bound = rename_bound(limit, scope, vars, body)?;
            Ok(Expr::Let {
                vars: bound.vars,
                value,
                body: bound.body,
            })
        }
        Expr::Do { first, second } => {
            let first = rename_boxed(limit, scope, first)?;
            let second = rename_boxed(limit, scope, second)?;
            Ok(Expr::Do { first, second })
        }
        Expr::Case { value, clauses } => {
            let value = rename_boxed(limit, scope, value)?;
            let clauses = rename_clauses(limit, scope, clauses)?;
            Ok(Expr::Case { value, clauses })
        }
        Expr::Letrec { functions, body } => {
            let functions = rename_functions(limit, scope, functions)?;
            let body = rename_boxed(limit, scope, body)?;
            Ok(Expr::Letrec { functions, body })
        }
        Expr::Apply { what, args } => {
            let what = rename_boxed(limit, scope, what)?;
            let args = rename_each(limit, scope, args)?;
            Ok(Expr::Apply { what, args })
        }
        Expr::Call { module, name, args } => {
            let module = rename_boxed(limit, scope, module)?;
            let name = rename_boxed(limit, scope, name)?;
            let args = rename_each(limit, scope, args)?;
            Ok(Expr::Call { module, name, args })
        }
        Expr::Primop { name, args } => {
            let args = rename_each(limit, scope, args)?;
            Ok(Expr::Primop { name: *name, args })
        }
        Expr::Receive {
            clauses,
            timeout,
            body,
        } => {
            let clauses = rename_clauses(limit, scope, clauses)?;
            let timeout = rename_boxed(limit, scope, timeout)?;
            let body = rename_boxed(limit, scope, body)?;
            Ok(Expr::Receive {
                clauses,
                timeout,
                body,
            })
        }
        Expr::Try {
            value,
            vars,
            body,
            catch_vars,
            catch_body,
        } => {
            let value = rename_boxed(limit, scope, value)?;
            let first = rename_bound(limit, scope, vars, body)?;
            let second = rename_bound(limit, scope, catch_vars, catch_body)?;
            Ok(Expr::Try {
                value,
                vars: first.vars,
                body: first.body,
                catch_vars: second.vars,
                catch_body: second.body,
            })
        }
        Expr::Catch(body) => Ok(Expr::Catch(rename_boxed(limit, scope, body)?)),
        Expr::Fun { params, body } => {
            let bound = rename_bound(limit, scope, params, body)?;
            Ok(Expr::Fun {
                params: bound.vars,
                body: bound.body,
            })
        }
    }
}

// An expression inside another one.
#[cycle(rename)]
fn rename_boxed(limit: u32, scope: &mut Scope, expr: &Boxed<Expr>) -> Result<Boxed<Expr>, Memory>
    ensures renamed { IfOk result (λ tree.
        syntax_of tree ≡ renamed_syntax limit scope.old (syntax_of expr.now)) }
    ensures scope { OnOk result (scope.new ≡ scope.old) }
{
    let tree = rename_expr(limit, scope, expr.get())?;
    Ok(Boxed::new(scope.allocator(), tree)?)
}

// An expression under variables that are bound in it alone.
#[cycle(rename)]
fn rename_bound(
    limit: u32,
    scope: &mut Scope,
    vars: &Items<u32>,
    body: &Boxed<Expr>,
) -> Result<Bound, Memory>
    ensures names { IfOk result (λ bound. bound.vars ≡ names_for limit scope.old vars.now) }
    ensures renamed { IfOk result (λ bound. syntax_of bound.body
        ≡ renamed_syntax limit (with_variables scope.old vars.now) (syntax_of body.now)) }
    ensures scope { OnOk result (scope.new ≡ scope.old) }
{
    let depth = scope.depth();
    let vars = bind_all(limit, scope, vars)?;
    let body = rename_boxed(limit, scope, body)?;
    scope.back_to(depth);
    Ok(Bound { vars, body })
}

// Expressions one after another.
#[cycle(rename)]
fn rename_each(limit: u32, scope: &mut Scope, exprs: &Items<Expr>) -> Result<Items<Expr>, Memory>
    ensures renamed { IfOk result (λ trees.
        map syntax_of trees ≡ map (renamed_syntax limit scope.old) (map syntax_of exprs.now)) }
    ensures scope { OnOk result (scope.new ≡ scope.old) }
{
    let mut trees = Items::new(scope.allocator());
    for expr in exprs.as_slice() {
        trees.push(rename_expr(limit, scope, expr)?)?;
    }
    Ok(trees)
}

// A clause: its patterns bind for its guard and its body.
#[cycle(rename)]
fn rename_clause(limit: u32, scope: &mut Scope, clause: &Clause) -> Result<Clause, Memory>
    ensures renamed { IfOk result (λ renamed.
        clause_syntax renamed ≡ renamed_clause limit scope.old (clause_syntax clause.now)) }
    ensures scope { OnOk result (scope.new ≡ scope.old) }
{
    let depth = scope.depth();
    let patterns = rename_patterns(limit, scope, clause.patterns.as_slice())?;
    let guard = rename_expr(limit, scope, &clause.guard)?;
    let body = rename_expr(limit, scope, &clause.body)?;
    scope.back_to(depth);
    Ok(Clause {
        patterns,
        guard,
        body,
    })
}

// Clauses one after another.
#[cycle(rename)]
fn rename_clauses(
    limit: u32,
    scope: &mut Scope,
    clauses: &Items<Clause>,
) -> Result<Items<Clause>, Memory>
    ensures renamed { IfOk result (λ renamed. map clause_syntax renamed
        ≡ map (renamed_clause limit scope.old) (map clause_syntax clauses.now)) }
    ensures scope { OnOk result (scope.new ≡ scope.old) }
{
    let mut renamed = Items::new(scope.allocator());
    for clause in clauses.as_slice() {
        renamed.push(rename_clause(limit, scope, clause)?)?;
    }
    Ok(renamed)
}

/// A function, whose parameters are bound in its body.
#[cycle(rename)]
pub fn rename_function(
    limit: u32,
    scope: &mut Scope,
    function: &Function,
) -> Result<Function, Memory>
    ensures renamed { IfOk result (λ renamed. function_syntax renamed
        ≡ renamed_definition limit scope.old (function_syntax function.now)) }
    ensures scope { OnOk result (scope.new ≡ scope.old) }
{
    let depth = scope.depth();
    let params = bind_all(limit, scope, &function.params)?;
    let body = rename_expr(limit, scope, &function.body)?;
    scope.back_to(depth);
    Ok(Function {
        name: function.name,
        params,
        body,
    })
}

/// Functions, each in the same scope.
#[cycle(rename)]
pub fn rename_functions(
    limit: u32,
    scope: &mut Scope,
    functions: &Items<Function>,
) -> Result<Items<Function>, Memory>
    ensures renamed { IfOk result (λ renamed. map function_syntax renamed
        ≡ map (renamed_definition limit scope.old) (map function_syntax functions.now)) }
    ensures scope { OnOk result (scope.new ≡ scope.old) }
{
    let mut renamed = Items::new(scope.allocator());
    for function in functions.as_slice() {
        renamed.push(rename_function(limit, scope, function)?)?;
    }
    Ok(renamed)
}
