ghost use Rattle.std.specs.Prelude.{◌≡◌, ◌++◌, codes, map, OnOk};
ghost use Rattle.hy_core.specs.declared.tree.Module.{Module};
ghost use Rattle.hy_core.specs.Canonical.{expr_part, expr_text, clause_text, function_text, texts_of, with_commas, one_after_another, list_end, arm_text, fun_text};

use crate::names::{push_binding, push_variables};
use crate::pattern::push_patterns;
use crate::token::{push_atom_token, push_integer, push_name, push_string, push_variable, put};
use hy_core::{Clause, Expr, Function, Module};
use hy_terms::Memory;

fn is_nil(expr: &Expr) -> bool
    ensures { (names : Module) → (expr_part names expr.now).is_nil ≡ result }
{
    matches!(expr, Expr::Nil)
}

/// Appends an expression.
#[cycle(print)]
pub fn push_expr(out: &mut Vec<u8>, names: &Module, expr: &Expr) -> Result<(), Memory>
    ensures { OnOk result (out.new.items ≡ out.old.items ++ expr_text names.now expr.now) }
{
    match expr {
        Expr::Int(n) => push_integer(out, *n),
        Expr::Atom(atom) => push_atom_token(out, names, *atom),
        Expr::Nil => put(out, b" [ ]"),
        Expr::Str(text) => push_string(out, text.as_slice()),
        Expr::Var(variable) => push_variable(out, names, *variable),
        Expr::Name(name) => push_name(out, names, *name),
        Expr::Tuple { site: _, parts } => push_between(out, names, b" {", parts.as_slice(), b" }"),
        Expr::List {
            site: _,
            heads,
            tail,
        } => {
            put(out, b" [")?;
            push_exprs(out, names, heads.as_slice())?;
            push_list_end(out, names, tail.get())
        }
        Expr::Values(parts) => push_between(out, names, b" <", parts.as_slice(), b" >"),
        Expr::Let { vars, value, body } => {
            put(out, b" let")?;
            push_binding(out, names, vars.as_slice())?;
            push_after(out, names, b" =", value.get())?;
            push_after(out, names, b" in", body.get())
        }
        Expr::Do { first, second } => {
            push_after(out, names, b" do", first.get())?;
            push_expr(out, names, second.get())
        }
        Expr::Case { value, clauses } => {
            push_after(out, names, b" case", value.get())?;
            push_clauses(out, names, b" of", clauses.as_slice())?;
            put(out, b" end")
        }
        Expr::Letrec { functions, body } => {
            put(out, b" letrec")?;
            push_functions(out, names, functions.as_slice())?;
            push_after(out, names, b" in", body.get())
        }
        Expr::Apply { what, args } => {
            push_after(out, names, b" apply", what.get())?;
            push_between(out, names, b" (", args.as_slice(), b" )")
        }
        Expr::Call { module, name, args } => {
            push_after(out, names, b" call", module.get())?;
            push_after(out, names, b" :", name.get())?;
            push_between(out, names, b" (", args.as_slice(), b" )")
        }
        Expr::Primop { name, args } => {
            put(out, b" primop")?;
            push_atom_token(out, names, *name)?;
            push_between(out, names, b" (", args.as_slice(), b" )")
        }
        Expr::Receive {
            clauses,
            timeout,
            body,
        } => {
            push_clauses(out, names, b" receive", clauses.as_slice())?;
            push_after(out, names, b" after", timeout.get())?;
            push_after(out, names, b" ->", body.get())
        }
        Expr::Try {
            value,
            vars,
            body,
            catch_vars,
            catch_body,
        } => {
            push_after(out, names, b" try", value.get())?;
            push_arm(out, names, b" of", vars.as_slice(), body.get())?;
            push_arm(
                out,
                names,
                b" catch",
                catch_vars.as_slice(),
                catch_body.get(),
            )
        }
        Expr::Catch(value) => push_after(out, names, b" catch", value.get()),
        Expr::Fun { params, body } => push_fun(out, names, params.as_slice(), body.get()),
    }
}

// Appends an expression behind these words.
#[cycle(print)]
fn push_after(out: &mut Vec<u8>, names: &Module, words: &[u8], expr: &Expr) -> Result<(), Memory>
    ensures { OnOk result (out.new.items ≡ out.old.items ++ words.now
        ++ expr_text names.now expr.now) }
{
    put(out, words)?;
    push_expr(out, names, expr)
}

// Appends expressions with commas between them.
#[cycle(print)]
fn push_exprs(out: &mut Vec<u8>, names: &Module, exprs: &[Expr]) -> Result<(), Memory>
    ensures { OnOk result (out.new.items ≡ out.old.items
        ++ with_commas (texts_of (map (expr_part names.now) exprs.now))) }
{
    if let [first, rest @ ..] = exprs {
        push_expr(out, names, first)?;
        for expr in rest {
            put(out, b" ,")?;
            push_expr(out, names, expr)?;
        }
    }
    Ok(())
}

// Appends expressions with commas between them, and these marks around.
#[cycle(print)]
fn push_between(
    out: &mut Vec<u8>,
    names: &Module,
    opening: &[u8],
    exprs: &[Expr],
    closing: &[u8],
) -> Result<(), Memory>
    ensures { OnOk result (out.new.items ≡ out.old.items ++ opening.now
        ++ with_commas (texts_of (map (expr_part names.now) exprs.now)) ++ closing.now) }
{
    put(out, opening)?;
    push_exprs(out, names, exprs)?;
    put(out, closing)
}

// Appends the end of a list notation: its tail, unless that is nil.
#[cycle(print)]
fn push_list_end(out: &mut Vec<u8>, names: &Module, tail: &Expr) -> Result<(), Memory>
    ensures { OnOk result (out.new.items ≡ out.old.items
        ++ list_end (expr_part names.now tail.now)) }
{
    if is_nil(tail) {
        put(out, b" ]")
    } else {
        push_tail(out, names, tail)
    }
}

// Appends a tail that isn't nil.
#[cycle(print)]
fn push_tail(out: &mut Vec<u8>, names: &Module, tail: &Expr) -> Result<(), Memory>
    ensures { OnOk result (out.new.items ≡ out.old.items
        ++ (codes " |" ++ expr_text names.now tail.now ++ codes " ]")) }
{
    put(out, b" |")?;
    push_expr(out, names, tail)?;
    put(out, b" ]")
}

// Appends what values are bound to and what they are bound in, behind these words.
#[cycle(print)]
fn push_arm(
    out: &mut Vec<u8>,
    names: &Module,
    words: &[u8],
    vars: &[u32],
    body: &Expr,
) -> Result<(), Memory>
    ensures { OnOk result (out.new.items ≡ out.old.items ++ words.now
        ++ arm_text names.now vars.now (expr_text names.now body.now)) }
{
    put(out, words)?;
    push_binding(out, names, vars)?;
    put(out, b" ->")?;
    push_expr(out, names, body)
}

#[cycle(print)]
fn push_fun(out: &mut Vec<u8>, names: &Module, params: &[u32], body: &Expr) -> Result<(), Memory>
    ensures { OnOk result (out.new.items ≡ out.old.items ++ fun_text names.now params.now
        (expr_text names.now body.now)) }
{
    put(out, b" fun (")?;
    push_variables(out, names, params)?;
    put(out, b" ) ->")?;
    push_expr(out, names, body)
}

// Appends clauses behind these words.
#[cycle(print)]
fn push_clauses(
    out: &mut Vec<u8>,
    names: &Module,
    words: &[u8],
    clauses: &[Clause],
) -> Result<(), Memory>
    ensures { OnOk result (out.new.items ≡ out.old.items ++ words.now
        ++ one_after_another (map (clause_text names.now) clauses.now)) }
{
    put(out, words)?;
    for clause in clauses {
        push_clause(out, names, clause)?;
    }
    Ok(())
}

#[cycle(print)]
fn push_clause(out: &mut Vec<u8>, names: &Module, clause: &Clause) -> Result<(), Memory>
    ensures { OnOk result (out.new.items ≡ out.old.items ++ clause_text names.now clause.now) }
{
    put(out, b" <")?;
    push_patterns(out, names, clause.patterns.as_slice())?;
    put(out, b" > when")?;
    push_expr(out, names, &clause.guard)?;
    put(out, b" ->")?;
    push_expr(out, names, &clause.body)
}

/// Appends definitions of functions.
#[cycle(print)]
pub fn push_functions(
    out: &mut Vec<u8>,
    names: &Module,
    functions: &[Function],
) -> Result<(), Memory>
    ensures { OnOk result (out.new.items ≡ out.old.items ++ one_after_another
        (map (function_text names.now) functions.now)) }
{
    for function in functions {
        push_function(out, names, function)?;
    }
    Ok(())
}

#[cycle(print)]
fn push_function(out: &mut Vec<u8>, names: &Module, function: &Function) -> Result<(), Memory>
    ensures { OnOk result (out.new.items ≡ out.old.items ++ function_text names.now function.now) }
{
    push_name(out, names, function.name)?;
    put(out, b" =")?;
    push_fun(out, names, function.params.as_slice(), &function.body)
}
