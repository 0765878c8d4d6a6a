ghost use Rattle.std.specs.Prelude.{◌≡◌};
ghost use Rattle.hy_core.specs.ProgramTrees.{is_event as is_event_there};
ghost use Rattle.hy_core.specs.Syntax.{syntax_of};
ghost use Rattle.event_nodes.specs.code.Walked.{is_event_of, is_nil as is_nil_there};

use core_names::{BuiltIn, called};
use hy_core::Expr;
use hy_terms::Atoms;

// Whether a call of this built-in is an event.
fn does_event(built_in: Option<BuiltIn>) -> bool
    ensures { result ≡ is_event_of built_in }
{
    match built_in {
        Some(BuiltIn::Send) | Some(BuiltIn::Spawn) | Some(BuiltIn::Display) => true,
        Some(BuiltIn::Plain(_)) | Some(BuiltIn::Setelement) | Some(BuiltIn::Raise(_)) | None =>
            false,
    }
}

/// Whether an expression is a call of `!`, `send`, `spawn` or `display`.
pub fn is_event(atoms: &Atoms, expr: &Expr) -> bool
    ensures { result ≡ is_event_there atoms.now (syntax_of expr.now) }
{
    if let Expr::Call { module, name, args } = expr {
        does_event(called(atoms, module.get(), name.get(), args.len()))
    } else {
        false
    }
}

/// Whether an expression is nil.
pub fn is_nil(expr: &Expr) -> bool
    ensures { result ≡ is_nil_there (syntax_of expr.now) }
{
    matches!(expr, Expr::Nil)
}
