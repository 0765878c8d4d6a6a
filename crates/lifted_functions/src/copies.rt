ghost use Rattle.std.specs.Prelude.{◌≡◌, IfOk};

use hy_core::{Clause, Expr, Function, Pattern, Text};
use hy_terms::Memory;
use sqlite_items::{Boxed, Items};
use std::alloc::{AllocError, Global};

// A copy of a text.
fn copied_text(alloc: Global, text: &Text) -> Result<Text, AllocError>
    ensures { IfOk result (λ copy. copy ≡ text.now) }
{
    Ok(Text::from_vec(Vec::from_slice(alloc, text.as_slice())?))
}

/// A copy of variables.
pub fn copied_variables(alloc: Global, variables: &Items<u32>) -> Result<Items<u32>, AllocError>
    ensures { IfOk result (λ copy. copy ≡ variables.now) }
{
    Items::from_slice(alloc, variables.as_slice())
}

// A copy of a pattern.
#[cycle(copy_pattern)]
fn copied_pattern(alloc: Global, pattern: &Pattern) -> Result<Pattern, Memory>
    ensures { IfOk result (λ copy. copy ≡ pattern.now) }
{
    match pattern {
        Pattern::Var(variable) => Ok(Pattern::Var(*variable)),
        Pattern::Int(value) => Ok(Pattern::Int(*value)),
        Pattern::Atom(atom) => Ok(Pattern::Atom(*atom)),
        Pattern::Nil => Ok(Pattern::Nil),
        Pattern::Str(text) => Ok(Pattern::Str(copied_text(alloc, text)?)),
        Pattern::Tuple(parts) => Ok(Pattern::Tuple(copied_patterns(alloc, parts)?)),
        Pattern::List { heads, tail } => {
            let heads = copied_patterns(alloc, heads)?;
            let tail = copied_pattern(alloc, tail.get())?;
            let tail = Boxed::new(alloc, tail)?;
            Ok(Pattern::List { heads, tail })
        }
        Pattern::Alias { var, pattern } => {
            let pattern = copied_pattern(alloc, pattern.get())?;
            let pattern = Boxed::new(alloc, pattern)?;
            Ok(Pattern::Alias { var: *var, pattern })
        }
    }
}

/// Copies of patterns.
#[cycle(copy_pattern)]
pub fn copied_patterns(alloc: Global, patterns: &Items<Pattern>) -> Result<Items<Pattern>, Memory>
    ensures { IfOk result (λ copies. copies ≡ patterns.now) }
{
    let mut copies = Items::new(alloc);
    for pattern in patterns.as_slice() {
        copies.push(copied_pattern(alloc, pattern)?)?;
    }
    Ok(copies)
}

/// A copy of an expression.
#[cycle(copy_expr)]
pub fn copied_expr(alloc: Global, expr: &Expr) -> Result<Expr, Memory>
    ensures { IfOk result (λ copy. copy ≡ expr.now) }
{
    match expr {
        Expr::Int(value) => Ok(Expr::Int(*value)),
        Expr::Atom(atom) => Ok(Expr::Atom(*atom)),
        Expr::Nil => Ok(Expr::Nil),
        Expr::Str(text) => Ok(Expr::Str(copied_text(alloc, text)?)),
        Expr::Var(variable) => Ok(Expr::Var(*variable)),
        Expr::Name(name) => Ok(Expr::Name(*name)),
        Expr::Tuple { site, parts } => {
            let parts = copied_each(alloc, parts)?;
            Ok(Expr::Tuple { site: *site, parts })
        }
        Expr::List { site, heads, tail } => {
            let heads = copied_each(alloc, heads)?;
            let tail = copied_boxed(alloc, tail)?;
            Ok(Expr::List {
                site: *site,
                heads,
                tail,
            })
        }
        Expr::Values(parts) => Ok(Expr::Values(copied_each(alloc, parts)?)),
        Expr::Let { vars, value, body } => {
            let vars = copied_variables(alloc, vars)?;
            let value = copied_boxed(alloc, value)?;
            let body = copied_boxed(alloc, body)?;
            Ok(Expr::Let { vars, value, body })
        }
        Expr::Do { first, second } => {
            let first = copied_boxed(alloc, first)?;
            let second = copied_boxed(alloc, second)?;
            Ok(Expr::Do { first, second })
        }
        Expr::Case { value, clauses } => {
            let value = copied_boxed(alloc, value)?;
            let clauses = copied_clauses(alloc, clauses)?;
            Ok(Expr::Case { value, clauses })
        }
        Expr::Letrec { functions, body } => {
            let functions = copied_functions(alloc, functions)?;
            let body = copied_boxed(alloc, body)?;
            Ok(Expr::Letrec { functions, body })
        }
        Expr::Apply { what, args } => {
            let what = copied_boxed(alloc, what)?;
            let args = copied_each(alloc, args)?;
            Ok(Expr::Apply { what, args })
        }
        Expr::Call { module, name, args } => {
            let module = copied_boxed(alloc, module)?;
            let name = copied_boxed(alloc, name)?;
            let args = copied_each(alloc, args)?;
            Ok(Expr::Call { module, name, args })
        }
        Expr::Primop { name, args } => {
            let args = copied_each(alloc, args)?;
            Ok(Expr::Primop { name: *name, args })
        }
        Expr::Receive {
            clauses,
            timeout,
            body,
        } => {
            let clauses = copied_clauses(alloc, clauses)?;
            let timeout = copied_boxed(alloc, timeout)?;
            let body = copied_boxed(alloc, body)?;
            Ok(Expr::Receive {
                clauses,
                timeout,
                body,
            })
        }
        Expr::Try {
            value,
            vars,
            body,
            catch_vars,
            catch_body,
        } => {
            let value = copied_boxed(alloc, value)?;
            let vars = copied_variables(alloc, vars)?;
            let body = copied_boxed(alloc, body)?;
            let catch_vars = copied_variables(alloc, catch_vars)?;
            let catch_body = copied_boxed(alloc, catch_body)?;
            Ok(Expr::Try {
                value,
                vars,
                body,
                catch_vars,
                catch_body,
            })
        }
        Expr::Catch(body) => Ok(Expr::Catch(copied_boxed(alloc, body)?)),
        Expr::Fun { params, body } => {
            let params = copied_variables(alloc, params)?;
            let body = copied_boxed(alloc, body)?;
            Ok(Expr::Fun { params, body })
        }
    }
}

/// A copy of an expression inside another one.
#[cycle(copy_expr)]
pub fn copied_boxed(alloc: Global, expr: &Boxed<Expr>) -> Result<Boxed<Expr>, Memory>
    ensures { IfOk result (λ copy. copy ≡ expr.now) }
{
    let copy = copied_expr(alloc, expr.get())?;
    Ok(Boxed::new(alloc, copy)?)
}

/// Copies of expressions.
#[cycle(copy_expr)]
pub fn copied_each(alloc: Global, exprs: &Items<Expr>) -> Result<Items<Expr>, Memory>
    ensures { IfOk result (λ copies. copies ≡ exprs.now) }
{
    let mut copies = Items::new(alloc);
    for expr in exprs.as_slice() {
        copies.push(copied_expr(alloc, expr)?)?;
    }
    Ok(copies)
}

// A copy of a clause.
#[cycle(copy_expr)]
fn copied_clause(alloc: Global, clause: &Clause) -> Result<Clause, Memory>
    ensures { IfOk result (λ copy. copy ≡ clause.now) }
{
    let patterns = copied_patterns(alloc, &clause.patterns)?;
    let guard = copied_expr(alloc, &clause.guard)?;
    let body = copied_expr(alloc, &clause.body)?;
    Ok(Clause {
        patterns,
        guard,
        body,
    })
}

// Copies of clauses.
#[cycle(copy_expr)]
fn copied_clauses(alloc: Global, clauses: &Items<Clause>) -> Result<Items<Clause>, Memory>
    ensures { IfOk result (λ copies. copies ≡ clauses.now) }
{
    let mut copies = Items::new(alloc);
    for clause in clauses.as_slice() {
        copies.push(copied_clause(alloc, clause)?)?;
    }
    Ok(copies)
}

// A copy of a function.
#[cycle(copy_expr)]
fn copied_function(alloc: Global, function: &Function) -> Result<Function, Memory>
    ensures { IfOk result (λ copy. copy ≡ function.now) }
{
    let params = copied_variables(alloc, &function.params)?;
    let body = copied_expr(alloc, &function.body)?;
    Ok(Function {
        name: function.name,
        params,
        body,
    })
}

// Copies of functions.
#[cycle(copy_expr)]
fn copied_functions(alloc: Global, functions: &Items<Function>) -> Result<Items<Function>, Memory>
    ensures { IfOk result (λ copies. copies ≡ functions.now) }
{
    let mut copies = Items::new(alloc);
    for function in functions.as_slice() {
        copies.push(copied_function(alloc, function)?)?;
    }
    Ok(copies)
}
