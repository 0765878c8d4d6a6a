ghost use Rattle.std.specs.Prelude.{◌≡◌, ℕ, ◌+◌, IfOk};
ghost use Rattle.hy_core.specs.Numbered.{numbered_tree};
ghost use Rattle.core_tables.specs.code.CallParts.{built_in_args};
ghost use Rattle.core_tables.specs.code.NumberedParts.{each, numbered_each, numbered_tail, numbered_clause, numbered_definition, spawned, spawn_args};

use crate::atom_numbers::{AtomNumbers, renamed, renamed_name};
use crate::call::call_sites;
use crate::numbers::Numbers;
use crate::patterns::{copied_text, number_patterns};
use core_names::{BuiltIn, called};
use hy_core::{Clause, Expr, Function, Module, SiteKind};
use hy_terms::Memory;
use sqlite_items::{Boxed, Items};
use std::alloc::{AllocError, Global};

// The site of a list notation that has none.
const NO_SITE: u32 = 0;

/// A copy of variables.
pub fn copied(alloc: Global, variables: &Items<u32>) -> Result<Items<u32>, AllocError>
    ensures { IfOk result (λ copy. copy ≡ variables.now) }
{
    Items::from_slice(alloc, variables.as_slice())
}

// An expression with no parts and no sites.
fn leaf(numbers: &mut Numbers, expr: Expr) -> Result<Expr, Memory>
    ensures { IfOk result (λ tree. (tree ≡ expr)
        × (numbers.new ≡ record numbers.old { node = numbers.old.node + 1 })) }
{
    numbers.pass()?;
    Ok(expr)
}

/// An expression of a module with the numbers of the program, in the function of this number.
#[cycle(number)]
pub fn number_expr(
    alloc: Global,
    places: &AtomNumbers,
    names: &Module,
    numbers: &mut Numbers,
    function: u32,
    expr: &Expr,
) -> Result<Expr, Memory>
    ensures { IfOk result (λ tree. (tree, numbers.new) ≡ numbered_tree places.now names.now
        expr.now function numbers.old) }
{
    match expr {
        Expr::Int(value) => leaf(numbers, Expr::Int(*value)),
        Expr::Atom(atom) => leaf(numbers, Expr::Atom(renamed(places, names, *atom))),
        Expr::Nil => leaf(numbers, Expr::Nil),
        Expr::Str(text) => {
            numbers.build(function, SiteKind::String, 1)?;
            Ok(Expr::Str(copied_text(alloc, text)?))
        }
        Expr::Var(variable) => leaf(numbers, Expr::Var(*variable)),
        Expr::Name(name) => leaf(numbers, Expr::Name(renamed_name(places, names, *name))),
        Expr::Tuple { site: _, parts } => {
            let site = numbers.build(function, SiteKind::Tuple, 1)?;
            let parts = number_each(alloc, places, names, numbers, function, parts)?;
            Ok(Expr::Tuple { site, parts })
        }
        Expr::List {
            site: _,
            heads,
            tail,
        } => {
            let site = numbers.build(function, SiteKind::Cons, heads.len())?;
            let heads = number_each(alloc, places, names, numbers, function, heads)?;
            let tail = number_tail(alloc, places, names, numbers, function, tail)?;
            Ok(Expr::List { site, heads, tail })
        }
        Expr::Values(parts) => {
            numbers.pass()?;
            let parts = number_each(alloc, places, names, numbers, function, parts)?;
            Ok(Expr::Values(parts))
        }
        Expr::Let { vars, value, body } => {
            numbers.pass()?;
            let value = number_boxed(alloc, places, names, numbers, function, value)?;
            let body = number_boxed(alloc, places, names, numbers, function, body)?;
            let vars = copied(alloc, vars)?;
            Ok(Expr::Let { vars, value, body })
        }
        Expr::Do { first, second } => {
            numbers.pass()?;
            let first = number_boxed(alloc, places, names, numbers, function, first)?;
            let second = number_boxed(alloc, places, names, numbers, function, second)?;
            Ok(Expr::Do { first, second })
        }
        Expr::Case { value, clauses } => {
            numbers.pass()?;
            let value = number_boxed(alloc, places, names, numbers, function, value)?;
            let clauses = number_clauses(alloc, places, names, numbers, function, clauses)?;
            Ok(Expr::Case { value, clauses })
        }
        Expr::Letrec { functions, body } => {
            numbers.pass()?;
            let functions = number_definitions(alloc, places, names, numbers, functions)?;
            let body = number_boxed(alloc, places, names, numbers, function, body)?;
            Ok(Expr::Letrec { functions, body })
        }
        Expr::Apply { what, args } => {
            numbers.pass()?;
            let what = number_boxed(alloc, places, names, numbers, function, what)?;
            let args = number_each(alloc, places, names, numbers, function, args)?;
            Ok(Expr::Apply { what, args })
        }
        Expr::Call { module, name, args } => {
            let built_in = called(&names.atoms, module.get(), name.get(), args.len());
            numbers.build(function, SiteKind::Setelement, call_sites(built_in))?;
            let module = number_boxed(alloc, places, names, numbers, function, module)?;
            let name = number_boxed(alloc, places, names, numbers, function, name)?;
            let args = number_args(alloc, places, names, numbers, function, built_in, args)?;
            Ok(Expr::Call { module, name, args })
        }
        Expr::Primop { name, args } => {
            numbers.pass()?;
            let args = number_each(alloc, places, names, numbers, function, args)?;
            let name = renamed(places, names, *name);
            Ok(Expr::Primop { name, args })
        }
        Expr::Receive {
            clauses,
            timeout,
            body,
        } => {
            numbers.pass()?;
            let clauses = number_clauses(alloc, places, names, numbers, function, clauses)?;
            let timeout = number_boxed(alloc, places, names, numbers, function, timeout)?;
            let body = number_boxed(alloc, places, names, numbers, function, body)?;
            Ok(Expr::Receive {
                clauses,
                timeout,
                body,
            })
        }
        Expr::Try {
            value,
            vars,
            body,
            catch_vars,
            catch_body,
        } => {
            numbers.pass()?;
            let value = number_boxed(alloc, places, names, numbers, function, value)?;
            let body = number_boxed(alloc, places, names, numbers, function, body)?;
            let catch_body = number_boxed(alloc, places, names, numbers, function, catch_body)?;
            let vars = copied(alloc, vars)?;
            let catch_vars = copied(alloc, catch_vars)?;
            Ok(Expr::Try {
                value,
                vars,
                body,
                catch_vars,
                catch_body,
            })
        }
        Expr::Catch(body) => {
            numbers.pass()?;
            let body = number_boxed(alloc, places, names, numbers, function, body)?;
            Ok(Expr::Catch(body))
        }
        Expr::Fun { params, body } => {
            numbers.pass()?;
            let body = number_boxed(alloc, places, names, numbers, function, body)?;
            let params = copied(alloc, params)?;
            Ok(Expr::Fun { params, body })
        }
    }
}

// An expression inside another one.
#[cycle(number)]
fn number_boxed(
    alloc: Global,
    places: &AtomNumbers,
    names: &Module,
    numbers: &mut Numbers,
    function: u32,
    expr: &Boxed<Expr>,
) -> Result<Boxed<Expr>, Memory>
    ensures { IfOk result (λ tree. (tree, numbers.new) ≡ numbered_tree places.now names.now
        expr.now function numbers.old) }
{
    let tree = number_expr(alloc, places, names, numbers, function, expr.get())?;
    Ok(Boxed::new(alloc, tree)?)
}

// Expressions one after another.
#[cycle(number)]
fn number_each(
    alloc: Global,
    places: &AtomNumbers,
    names: &Module,
    numbers: &mut Numbers,
    function: u32,
    exprs: &Items<Expr>,
) -> Result<Items<Expr>, Memory>
    ensures { IfOk result (λ trees. (trees, numbers.new) ≡ numbered_each places.now names.now
        exprs.now function numbers.old) }
{
    let mut trees = Items::new(alloc);
    for expr in exprs.as_slice() {
        trees.push(number_expr(alloc, places, names, numbers, function, expr)?)?;
    }
    Ok(trees)
}

// The tail of a list notation.
#[cycle(number)]
fn number_tail(
    alloc: Global,
    places: &AtomNumbers,
    names: &Module,
    numbers: &mut Numbers,
    function: u32,
    tail: &Boxed<Expr>,
) -> Result<Boxed<Expr>, Memory>
    ensures { IfOk result (λ tree. (tree, numbers.new) ≡ numbered_tail places.now names.now
        tail.now function numbers.old) }
{
    if let Expr::Nil = tail.get() {
        Ok(Boxed::new(alloc, Expr::Nil)?)
    } else {
        number_boxed(alloc, places, names, numbers, function, tail)
    }
}

// An expression as the list of a `spawn`: a list notation has no sites there.
#[cycle(number)]
fn number_spawned(
    alloc: Global,
    places: &AtomNumbers,
    names: &Module,
    numbers: &mut Numbers,
    function: u32,
    expr: &Expr,
) -> Result<Expr, Memory>
    ensures { IfOk result (λ tree. (tree, numbers.new) ≡ spawned places.now names.now expr.now
        function numbers.old) }
{
    if let Expr::List {
        site: _,
        heads,
        tail,
    } = expr
    {
        numbers.pass()?;
        let heads = number_each(alloc, places, names, numbers, function, heads)?;
        let tail = number_tail(alloc, places, names, numbers, function, tail)?;
        Ok(Expr::List {
            site: NO_SITE,
            heads,
            tail,
        })
    } else {
        number_expr(alloc, places, names, numbers, function, expr)
    }
}

// The arguments of a call of this built-in.
#[cycle(number)]
fn number_args(
    alloc: Global,
    places: &AtomNumbers,
    names: &Module,
    numbers: &mut Numbers,
    function: u32,
    built_in: Option<BuiltIn>,
    args: &Items<Expr>,
) -> Result<Items<Expr>, Memory>
    ensures { IfOk result (λ trees. (trees, numbers.new) ≡ built_in_args places.now names.now
        built_in args.now function numbers.old) }
{
    if let Some(BuiltIn::Spawn) = built_in {
        number_spawn_args(alloc, places, names, numbers, function, args)
    } else {
        number_each(alloc, places, names, numbers, function, args)
    }
}

// The arguments of a `spawn`.
#[cycle(number)]
fn number_spawn_args(
    alloc: Global,
    places: &AtomNumbers,
    names: &Module,
    numbers: &mut Numbers,
    function: u32,
    args: &Items<Expr>,
) -> Result<Items<Expr>, Memory>
    ensures { IfOk result (λ trees. (trees, numbers.new) ≡ spawn_args places.now names.now
        args.now function numbers.old) }
{
    if let [module, name, list] = args.as_slice() {
        let mut trees = Items::new(alloc);
        trees.push(number_expr(alloc, places, names, numbers, function, module)?)?;
        trees.push(number_expr(alloc, places, names, numbers, function, name)?)?;
        trees.push(number_spawned(alloc, places, names, numbers, function, list)?)?;
        Ok(trees)
    } else {
        number_each(alloc, places, names, numbers, function, args)
    }
}

// A clause, behind the nodes of its patterns.
#[cycle(number)]
fn number_clause(
    alloc: Global,
    places: &AtomNumbers,
    names: &Module,
    numbers: &mut Numbers,
    function: u32,
    clause: &Clause,
) -> Result<Clause, Memory>
    ensures { IfOk result (λ tree. (tree, numbers.new) ≡ numbered_clause places.now names.now
        clause.now function numbers.old) }
{
    numbers.pass_patterns(clause.patterns.as_slice())?;
    let guard = number_expr(alloc, places, names, numbers, function, &clause.guard)?;
    let body = number_expr(alloc, places, names, numbers, function, &clause.body)?;
    let patterns = number_patterns(alloc, places, names, clause.patterns.as_slice())?;
    Ok(Clause {
        patterns,
        guard,
        body,
    })
}

// Clauses one after another.
#[cycle(number)]
fn number_clauses(
    alloc: Global,
    places: &AtomNumbers,
    names: &Module,
    numbers: &mut Numbers,
    function: u32,
    clauses: &Items<Clause>,
) -> Result<Items<Clause>, Memory>
    ensures { IfOk result (λ trees. (trees, numbers.new)
        ≡ each (numbered_clause places.now names.now) clauses.now function numbers.old) }
{
    let mut trees = Items::new(alloc);
    for clause in clauses.as_slice() {
        trees.push(number_clause(alloc, places, names, numbers, function, clause)?)?;
    }
    Ok(trees)
}

// A definition of a letrec, which is a function of its own.
#[cycle(number)]
fn number_definition(
    alloc: Global,
    places: &AtomNumbers,
    names: &Module,
    numbers: &mut Numbers,
    definition: &Function,
) -> Result<Function, Memory>
    ensures { IfOk result (λ tree. (function : ℕ) → (tree, numbers.new) ≡ numbered_definition
        places.now names.now definition.now function numbers.old) }
{
    let own = numbers.define()?;
    let body = number_expr(alloc, places, names, numbers, own, &definition.body)?;
    Ok(Function {
        name: renamed_name(places, names, definition.name),
        params: copied(alloc, &definition.params)?,
        body,
    })
}

// The definitions of a letrec.
#[cycle(number)]
fn number_definitions(
    alloc: Global,
    places: &AtomNumbers,
    names: &Module,
    numbers: &mut Numbers,
    definitions: &Items<Function>,
) -> Result<Items<Function>, Memory>
    ensures { IfOk result (λ trees. (function : ℕ) → (trees, numbers.new)
        ≡ each (numbered_definition places.now names.now) definitions.now function numbers.old) }
{
    let mut trees = Items::new(alloc);
    for definition in definitions.as_slice() {
        trees.push(number_definition(alloc, places, names, numbers, definition)?)?;
    }
    Ok(trees)
}
