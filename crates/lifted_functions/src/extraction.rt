ghost use Rattle.std.specs.Prelude.{◌≡◌, ◌++◌, map, IfOk, OnOk};
ghost use Rattle.hy_core.specs.Syntax.{clauses_of, definitions_of, syntax_of, syntaxes_of};
ghost use Rattle.lifted_functions.specs.code.CapturedLists.{captured_at};
ghost use Rattle.lifted_functions.specs.code.Extraction.{
  extracted_all_by,
  extracted_by,
  extracted_clause_by,
  extracted_clauses_by,
  extracted_definition_by,
  extracted_functions_by,
  state_of,
  with_definition,
};
ghost use Rattle.letrec_names.specs.Parts.{clause_syntax, function_syntax};

use crate::captured_lists::listed;
use crate::expressions::lift_expr;
use crate::lifted_text::LiftedText;
use crate::tables::Tables;
use hy_core::{Clause, Expr, Function};
use hy_terms::Memory;
use letrec_names::LetrecNames;
use sqlite_items::Items;
use std::alloc::AllocError;

/// The functions that are lifted so far, and the number of the next function of a letrec.
#[derive(Drop)]
pub struct Extracted {
    pub texts: Items<LiftedText>,
    pub next: u32,
}

// The parameters of a function of a letrec: what it captures, and then its own.
fn lifted_params(
    tables: &Tables,
    number: u32,
    params: &Items<u32>,
) -> Result<Items<u32>, AllocError>
    ensures { IfOk result (λ all. all ≡ captured_at tables.now.captured number ++ params.now) }
{
    let mut all = Items::from_slice(tables.alloc, listed(&tables.captured, number))?;
    all.append(Items::from_slice(tables.alloc, params.as_slice())?)?;
    Ok(all)
}

// Puts a function of a letrec behind the others, without those in it.
fn push_function(
    tables: &Tables,
    current: u32,
    reach: &mut LetrecNames,
    done: &mut Extracted,
    function: &Function,
) -> Result<(), Memory>
    ensures pushed { OnOk result (state_of done.new ≡ with_definition tables.now current reach.old
        (state_of done.old) (function_syntax function.now)) }
    ensures reach { OnOk result (reach.new ≡ reach.old) }
{
    let first = done.next.checked_add(1).ok_or(Memory)?;
    let params = lifted_params(tables, done.next, &function.params)?;
    let mut next = first;
    let body = lift_expr(tables, current, reach, &mut next, &function.body)?;
    done.texts.push(LiftedText { params, body })?;
    done.next = first;
    Ok(())
}

/// Puts the functions of the letrecs of an expression behind others, in the order of their numbers.
#[cycle(extract)]
pub fn extract(
    tables: &Tables,
    current: u32,
    reach: &mut LetrecNames,
    done: &mut Extracted,
    expr: &Expr,
) -> Result<(), Memory>
    ensures extracted { OnOk result (state_of done.new
        ≡ extracted_by tables.now current reach.old (state_of done.old) (syntax_of expr.now)) }
    ensures reach { OnOk result (reach.new ≡ reach.old) }
{
    match expr {
        Expr::Int(_)
        | Expr::Atom(_)
        | Expr::Nil
        | Expr::Str(_)
        | Expr::Var(_)
        | Expr::Name(_)
        | Expr::Catch(_)
        | Expr::Fun { params: _, body: _ } => Ok(()),
        Expr::Tuple { site: _, parts } | Expr::Values(parts) => {
            extract_each(tables, current, reach, done, parts)
        }
        Expr::List {
            site: _,
            heads,
            tail,
        } => {
            extract_each(tables, current, reach, done, heads)?;
            extract(tables, current, reach, done, tail.get())
        }
        Expr::Let {
            vars: _,
            value,
            body,
        } => {
            extract(tables, current, reach, done, value.get())?;
            extract(tables, current, reach, done, body.get())
        }
        Expr::Do { first, second } => {
            extract(tables, current, reach, done, first.get())?;
            extract(tables, current, reach, done, second.get())
        }
        Expr::Case { value, clauses } => {
            extract(tables, current, reach, done, value.get())?;
            extract_clauses(tables, current, reach, done, clauses)
        }
        Expr::Letrec { functions, body } => {
            let height = reach.height();
            reach.enter_functions(&tables.counts, done.next, functions.as_slice())?;
            extract_functions(tables, current, reach, done, functions)?;
            extract(tables, current, reach, done, body.get())?;
            reach.back_to(height);
            Ok(())
        }
        Expr::Apply { what: _, args }
        | Expr::Call {
            module: _,
            name: _,
            args,
        }
        | Expr::Primop { name: _, args } => extract_each(tables, current, reach, done, args),
        Expr::Receive {
            clauses,
            timeout: _,
            body,
        } => {
            extract_clauses(tables, current, reach, done, clauses)?;
            extract(tables, current, reach, done, body.get())
        }
        // The guard form, which stands for its first part.
        Expr::Try {
            value,
            vars: _,
            body: _,
            catch_vars: _,
            catch_body: _,
        } => extract(tables, current, reach, done, value.get()),
    }
}

#[cycle(extract)]
fn extract_each(
    tables: &Tables,
    current: u32,
    reach: &mut LetrecNames,
    done: &mut Extracted,
    exprs: &Items<Expr>,
) -> Result<(), Memory>
    ensures extracted { OnOk result (state_of done.new
        ≡ extracted_all_by tables.now current reach.old
        (state_of done.old) (syntaxes_of (map syntax_of exprs.now))) }
    ensures reach { OnOk result (reach.new ≡ reach.old) }
{
    for expr in exprs.as_slice() {
        extract(tables, current, reach, done, expr)?;
    }
    Ok(())
}

#[cycle(extract)]
fn extract_clause(
    tables: &Tables,
    current: u32,
    reach: &mut LetrecNames,
    done: &mut Extracted,
    clause: &Clause,
) -> Result<(), Memory>
    ensures extracted { OnOk result (state_of done.new ≡ extracted_clause_by tables.now current
        reach.old (state_of done.old) (clause_syntax clause.now)) }
    ensures reach { OnOk result (reach.new ≡ reach.old) }
{
    extract(tables, current, reach, done, &clause.guard)?;
    extract(tables, current, reach, done, &clause.body)
}

#[cycle(extract)]
fn extract_clauses(
    tables: &Tables,
    current: u32,
    reach: &mut LetrecNames,
    done: &mut Extracted,
    clauses: &Items<Clause>,
) -> Result<(), Memory>
    ensures extracted { OnOk result (state_of done.new ≡ extracted_clauses_by tables.now current
        reach.old (state_of done.old) (clauses_of (map clause_syntax clauses.now))) }
    ensures reach { OnOk result (reach.new ≡ reach.old) }
{
    for clause in clauses.as_slice() {
        extract_clause(tables, current, reach, done, clause)?;
    }
    Ok(())
}

// A function of a letrec, and then those in it.
#[cycle(extract)]
fn extract_function(
    tables: &Tables,
    current: u32,
    reach: &mut LetrecNames,
    done: &mut Extracted,
    function: &Function,
) -> Result<(), Memory>
    ensures extracted { OnOk result (state_of done.new ≡ extracted_definition_by tables.now current
        reach.old (state_of done.old) (function_syntax function.now)) }
    ensures reach { OnOk result (reach.new ≡ reach.old) }
{
    push_function(tables, current, reach, done, function)?;
    extract(tables, current, reach, done, &function.body)
}

#[cycle(extract)]
fn extract_functions(
    tables: &Tables,
    current: u32,
    reach: &mut LetrecNames,
    done: &mut Extracted,
    functions: &Items<Function>,
) -> Result<(), Memory>
    ensures extracted { OnOk result (state_of done.new ≡ extracted_functions_by tables.now current
        reach.old (state_of done.old) (definitions_of (map function_syntax functions.now))) }
    ensures reach { OnOk result (reach.new ≡ reach.old) }
{
    for function in functions.as_slice() {
        extract_function(tables, current, reach, done, function)?;
    }
    Ok(())
}
