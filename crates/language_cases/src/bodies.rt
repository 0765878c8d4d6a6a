use crate::fault::CaseFault;
use crate::numbers::push_number;
use hy_core::{Clause, Expr, FunName, Pattern};
use hy_terms::{Atoms, push_atom};

/// Appends this text.
pub fn push_words(out: &mut Vec<u8>, words: &str) -> Result<(), CaseFault> {
    out.extend_from_slice(words.as_bytes())?;
    Ok(())
}

/// Appends a body of a lifted program: a variable as `V` and its number, and a called function as
/// `f`, its number and how many parameters it takes. Forms that no case has are of no form here.
#[cycle(bodies)]
pub fn push_body(out: &mut Vec<u8>, atoms: &Atoms, expr: &Expr) -> Result<(), CaseFault> {
    match expr {
        Expr::Int(value) => push_int(out, *value),
        Expr::Atom(atom) => push_atom_of(out, atoms, *atom),
        Expr::Nil => push_words(out, "[]"),
        Expr::Str(text) => push_string(out, text.as_slice()),
        Expr::Var(variable) => push_number(out, "V", *variable),
        Expr::Name(name) => push_function(out, *name),
        Expr::Tuple { site: _, parts } => push_each(out, atoms, "{", parts.as_slice(), "}"),
        Expr::Values(parts) => push_each(out, atoms, "<", parts.as_slice(), ">"),
        Expr::List {
            site: _,
            heads,
            tail,
        } => {
            push_each(out, atoms, "[", heads.as_slice(), "|")?;
            push_body(out, atoms, tail.get())?;
            push_words(out, "]")
        }
        Expr::Let { vars, value, body } => {
            push_variables(out, "let <", vars.as_slice(), "> = ")?;
            push_body(out, atoms, value.get())?;
            push_words(out, " in ")?;
            push_body(out, atoms, body.get())
        }
        Expr::Do { first, second } => {
            push_words(out, "do ")?;
            push_body(out, atoms, first.get())?;
            push_words(out, " ")?;
            push_body(out, atoms, second.get())
        }
        Expr::Case { value, clauses } => {
            push_words(out, "case ")?;
            push_body(out, atoms, value.get())?;
            push_clauses(out, atoms, " of", clauses.as_slice())
        }
        Expr::Apply { what, args } => {
            push_body(out, atoms, what.get())?;
            push_each(out, atoms, "(", args.as_slice(), ")")
        }
        Expr::Call { module, name, args } => {
            push_body(out, atoms, module.get())?;
            push_words(out, ":")?;
            push_body(out, atoms, name.get())?;
            push_each(out, atoms, "(", args.as_slice(), ")")
        }
        Expr::Receive {
            clauses,
            timeout,
            body,
        } => {
            push_clauses(out, atoms, "receive", clauses.as_slice())?;
            push_words(out, " after ")?;
            push_body(out, atoms, timeout.get())?;
            push_words(out, " -> ")?;
            push_body(out, atoms, body.get())
        }
        Expr::Primop { .. }
        | Expr::Letrec { .. }
        | Expr::Try { .. }
        | Expr::Catch(_)
        | Expr::Fun { .. } => Err(CaseFault::Form),
    }
}

/// Appends expressions with commas between them, and texts around.
#[cycle(bodies)]
fn push_each(
    out: &mut Vec<u8>,
    atoms: &Atoms,
    front: &str,
    exprs: &[Expr],
    back: &str,
) -> Result<(), CaseFault> {
    push_words(out, front)?;
    let mut is_first = true;
    for expr in exprs {
        if !is_first {
            push_words(out, ",")?;
        }
        is_first = false;
        push_body(out, atoms, expr)?;
    }
    push_words(out, back)
}

/// Appends clauses behind a text, and an end.
#[cycle(bodies)]
fn push_clauses(
    out: &mut Vec<u8>,
    atoms: &Atoms,
    front: &str,
    clauses: &[Clause],
) -> Result<(), CaseFault> {
    push_words(out, front)?;
    for clause in clauses {
        push_words(out, " ")?;
        push_patterns(out, atoms, "<", clause.patterns.as_slice(), ">")?;
        push_words(out, " when ")?;
        push_body(out, atoms, &clause.guard)?;
        push_words(out, " -> ")?;
        push_body(out, atoms, &clause.body)?;
    }
    push_words(out, " end")
}

#[cycle(patterns)]
fn push_pattern(out: &mut Vec<u8>, atoms: &Atoms, pattern: &Pattern) -> Result<(), CaseFault> {
    match pattern {
        Pattern::Var(variable) => push_number(out, "V", *variable),
        Pattern::Int(value) => push_int(out, *value),
        Pattern::Atom(atom) => push_atom_of(out, atoms, *atom),
        Pattern::Nil => push_words(out, "[]"),
        Pattern::Str(text) => push_string(out, text.as_slice()),
        Pattern::Tuple(parts) => push_patterns(out, atoms, "{", parts.as_slice(), "}"),
        Pattern::List { heads, tail } => {
            push_patterns(out, atoms, "[", heads.as_slice(), "|")?;
            push_pattern(out, atoms, tail.get())?;
            push_words(out, "]")
        }
        Pattern::Alias { var, pattern } => {
            push_number(out, "V", *var)?;
            push_words(out, " = ")?;
            push_pattern(out, atoms, pattern.get())
        }
    }
}

/// Appends patterns with commas between them, and texts around.
#[cycle(patterns)]
fn push_patterns(
    out: &mut Vec<u8>,
    atoms: &Atoms,
    front: &str,
    patterns: &[Pattern],
    back: &str,
) -> Result<(), CaseFault> {
    push_words(out, front)?;
    let mut is_first = true;
    for pattern in patterns {
        if !is_first {
            push_words(out, ",")?;
        }
        is_first = false;
        push_pattern(out, atoms, pattern)?;
    }
    push_words(out, back)
}

/// Appends variables with commas between them, and texts around.
pub fn push_variables(
    out: &mut Vec<u8>,
    front: &str,
    variables: &[u32],
    back: &str,
) -> Result<(), CaseFault> {
    push_words(out, front)?;
    let mut is_first = true;
    for variable in variables {
        if !is_first {
            push_words(out, ",")?;
        }
        is_first = false;
        push_number(out, "V", *variable)?;
    }
    push_words(out, back)
}

fn push_int(out: &mut Vec<u8>, value: i64) -> Result<(), CaseFault> {
    let text = format!(in *out.allocator(); "{value}")?;
    out.extend_from_slice(text.as_bytes())?;
    Ok(())
}

fn push_atom_of(out: &mut Vec<u8>, atoms: &Atoms, atom: u32) -> Result<(), CaseFault> {
    push_atom(out, atoms.text_of(atom))?;
    Ok(())
}

fn push_string(out: &mut Vec<u8>, text: &[u8]) -> Result<(), CaseFault> {
    out.push(b'"')?;
    out.extend_from_slice(text)?;
    out.push(b'"')?;
    Ok(())
}

fn push_function(out: &mut Vec<u8>, function: FunName) -> Result<(), CaseFault> {
    push_number(out, "f", function.name)?;
    push_number(out, "/", function.arity)
}
