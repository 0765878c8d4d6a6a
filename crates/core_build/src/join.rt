ghost use Rattle.std.specs.Prelude.{◌≡◌, IfOk};
ghost use Rattle.hy_core.specs.Expressions.{joined};
ghost use Rattle.hy_core.specs.Patterns.{joined_pattern};
ghost use Rattle.core_build.specs.Steps.{GivesWhere};
ghost use Rattle.core_build.specs.code.Forms.{behind_head_patterns, behind_heads, exprs_joined, patterns_joined};

use crate::fault::StepFault;
use crate::pop::{pop_expr, pop_exprs, pop_pattern, pop_patterns};
use crate::value::Value;
use hy_core::{Expr, Pattern};
use sqlite_items::{Boxed, Items};
use stack::Stack;
use std::alloc::{AllocError, Global};

fn join(alloc: Global, heads: Items<Expr>, tail: Expr) -> Result<Expr, AllocError>
    ensures { IfOk result (λ x. x ≡ joined heads tail) }
{
    let mut heads = heads;
    match tail {
        Expr::List {
            site: _,
            heads: more,
            tail,
        } => {
            heads.append(more)?;
            Ok(Expr::List {
                site: 0,
                heads,
                tail,
            })
        }
        other => Ok(Expr::List {
            site: 0,
            heads,
            tail: Boxed::new(alloc, other)?,
        }),
    }
}

fn join_pattern(alloc: Global, heads: Items<Pattern>, tail: Pattern) -> Result<Pattern, AllocError>
    ensures { IfOk result (λ x. x ≡ joined_pattern heads tail) }
{
    let mut heads = heads;
    match tail {
        Pattern::List { heads: more, tail } => {
            heads.append(more)?;
            Ok(Pattern::List { heads, tail })
        }
        other => Ok(Pattern::List {
            heads,
            tail: Boxed::new(alloc, other)?,
        }),
    }
}

/// A list notation of these heads, which is joined with its tail where that is one.
pub fn list_of(alloc: Global, heads: Items<Expr>, tail: Expr) -> Result<Expr, AllocError>
    ensures { IfOk result (λ x. x ≡ behind_heads heads tail) }
{
    if heads.is_empty() {
        Ok(tail)
    } else {
        join(alloc, heads, tail)
    }
}

/// The same of patterns.
pub fn pattern_list_of(
    alloc: Global,
    heads: Items<Pattern>,
    tail: Pattern,
) -> Result<Pattern, AllocError>
    ensures { IfOk result (λ x. x ≡ behind_head_patterns heads tail) }
{
    if heads.is_empty() {
        Ok(tail)
    } else {
        join_pattern(alloc, heads, tail)
    }
}

pub fn build_join(alloc: Global, values: &mut Stack<Value>) -> Result<(), StepFault>
    ensures { GivesWhere result values.new (exprs_joined values.old) }
{
    let tail = pop_expr(values)?;
    let heads = pop_exprs(values)?;
    values.push(Value::Expr(list_of(alloc, heads, tail)?))?;
    Ok(())
}

pub fn build_pattern_join(alloc: Global, values: &mut Stack<Value>) -> Result<(), StepFault>
    ensures { GivesWhere result values.new (patterns_joined values.old) }
{
    let tail = pop_pattern(values)?;
    let heads = pop_patterns(values)?;
    values.push(Value::Pattern(pattern_list_of(alloc, heads, tail)?))?;
    Ok(())
}
