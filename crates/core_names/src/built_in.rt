ghost use Rattle.std.specs.Prelude.{◌≡◌};
ghost use Rattle.hy_terms.specs.Naming.{text_of};
ghost use Rattle.hy_core.specs.NodeParts.{atom_layer};
ghost use Rattle.hy_core.specs.declared.tree.Expr.TheViews.{out-Expr};
ghost use Rattle.core_names.specs.Called.{called as is_called, built_in_of as built_in_so_called};

use crate::rows::built_in_named;
use hy_core::{Bif, Class, Expr};
use hy_terms::Atoms;

/// A function of the module 'erlang' that programs may call, by what it does.
#[derive(Clone, Copy, Debug, PartialEq, Eq)]
pub enum BuiltIn {
    /// It gives a value or raises, and does nothing else.
    Plain(Bif),
    /// It gives a tuple with one element changed.
    Setelement,
    /// It sends a message.
    Send,
    /// It makes a process.
    Spawn,
    /// It prints a term.
    Display,
    /// It raises its argument in this class.
    Raise(Class),
}

/// The atom that an expression is.
pub fn atom_of(expr: &Expr) -> Option<u32>
    ensures { result ≡ atom_layer (out-Expr expr.now) }
{
    if let Expr::Atom(atom) = expr {
        Some(*atom)
    } else {
        None
    }
}

// The built-in of this module and name with so many arguments, where it is one.
fn built_in_of(place: &[u8], name: &[u8], arity: usize) -> Option<BuiltIn>
    ensures { result ≡ built_in_so_called place.now name.now arity }
{
    if place == b"erlang".as_slice() {
        built_in_named(name, arity)
    } else {
        None
    }
}

/// The built-in that a call of this module and name with so many arguments is, where it is one. The
/// two are atoms of this table.
pub fn called(atoms: &Atoms, place: &Expr, name: &Expr, arity: usize) -> Option<BuiltIn>
    ensures { result ≡ is_called atoms.now (atom_layer (out-Expr place.now))
        (atom_layer (out-Expr name.now)) arity }
{
    let place = atom_of(place)?;
    let name = atom_of(name)?;
    built_in_of(atoms.text_of(place), atoms.text_of(name), arity)
}
