ghost use Rattle.std.specs.Prelude.{◌≡◌, ◌++◌, map, pos, OnOk};
ghost use Rattle.hy_terms.specs.Naming.{text_of};
ghost use Rattle.hy_terms.specs.Texts.{int_text, atom_text, quoted};
ghost use Rattle.hy_core.specs.Canonical.{token, variable_text, atom_token, name_text};

use hy_core::{FunName, Module};
use hy_terms::{Memory, push_atom, push_int, push_quoted};

/// Appends these bytes as they are.
pub fn put(out: &mut Vec<u8>, text: &[u8]) -> Result<(), Memory>
    ensures { OnOk result (out.new.items ≡ out.old.items ++ text.now) }
{
    out.extend_from_slice(text)?;
    Ok(())
}

/// Appends a number.
pub fn push_integer(out: &mut Vec<u8>, n: i64) -> Result<(), Memory>
    ensures { OnOk result (out.new.items ≡ out.old.items ++ token (int_text n)) }
{
    out.push(b' ')?;
    push_int(out, n)
}

/// Appends a string of these bytes.
pub fn push_string(out: &mut Vec<u8>, text: &[u8]) -> Result<(), Memory>
    ensures { OnOk result (out.new.items ≡ out.old.items ++ token (quoted 34 text.now)) }
{
    out.push(b' ')?;
    push_quoted(out, b'"', text)
}

/// Appends a variable of this module.
pub fn push_variable(out: &mut Vec<u8>, names: &Module, variable: u32) -> Result<(), Memory>
    ensures { OnOk result (out.new.items ≡ out.old.items ++ variable_text names.now variable) }
{
    out.push(b' ')?;
    put(out, names.variables.text_of(variable))
}

/// Appends an atom of this module.
pub fn push_atom_token(out: &mut Vec<u8>, names: &Module, atom: u32) -> Result<(), Memory>
    ensures { OnOk result (out.new.items ≡ out.old.items ++ atom_token names.now atom) }
{
    out.push(b' ')?;
    push_atom(out, names.atoms.text_of(atom))
}

/// Appends a function's name.
pub fn push_name(out: &mut Vec<u8>, names: &Module, name: FunName) -> Result<(), Memory>
    ensures { OnOk result (out.new.items ≡ out.old.items ++ name_text names.now name) }
{
    push_atom_token(out, names, name.name)?;
    put(out, b" /")?;
    push_integer(out, i64::from(name.arity))
}
