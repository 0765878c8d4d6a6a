use crate::fault::CaseFault;
use hy_core::{Expr, Module};

/// Appends the numbers of atoms in the names of a numbered module, and those of atoms and sites in
/// the bodies of its functions.
pub fn push_numbers(out: &mut Vec<u8>, module: &Module) -> Result<(), CaseFault> {
    push_number(out, " module ", module.name)?;
    for function in module.functions.as_slice() {
        push_number(out, " function ", function.name.name)?;
        push_expr(out, &function.body)?;
    }
    Ok(())
}

/// Appends the numbers in an expression, as far as tuples, lists and calls go.
#[cycle(numbers)]
fn push_expr(out: &mut Vec<u8>, expr: &Expr) -> Result<(), CaseFault> {
    match expr {
        Expr::Atom(atom) => push_number(out, " atom ", *atom),
        Expr::Tuple { site, parts } => {
            push_number(out, " tuple ", *site)?;
            push_exprs(out, parts.as_slice())
        }
        Expr::List { site, heads, tail } => {
            push_number(out, " list ", *site)?;
            push_exprs(out, heads.as_slice())?;
            push_expr(out, tail.get())
        }
        Expr::Call { module, name, args } => {
            push_expr(out, module.get())?;
            push_expr(out, name.get())?;
            push_exprs(out, args.as_slice())
        }
        _ => Ok(()),
    }
}

#[cycle(numbers)]
fn push_exprs(out: &mut Vec<u8>, exprs: &[Expr]) -> Result<(), CaseFault> {
    for expr in exprs {
        push_expr(out, expr)?;
    }
    Ok(())
}

/// Appends a title and a number.
pub fn push_number(out: &mut Vec<u8>, title: &str, number: u32) -> Result<(), CaseFault> {
    let text = format!(in *out.allocator(); "{title}{number}")?;
    out.extend_from_slice(text.as_bytes())?;
    Ok(())
}
