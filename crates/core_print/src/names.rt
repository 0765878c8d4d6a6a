ghost use Rattle.std.specs.Prelude.{◌≡◌, ◌++◌, map, OnOk};
ghost use Rattle.hy_core.specs.Canonical.{variables_text, binding_text, name_text, with_commas};

use crate::token::{push_name, push_variable, put};
use hy_core::{FunName, Module};
use hy_terms::Memory;

/// Appends variables with commas between them.
pub fn push_variables(out: &mut Vec<u8>, names: &Module, variables: &[u32]) -> Result<(), Memory>
    ensures { OnOk result (out.new.items ≡ out.old.items
        ++ variables_text names.now variables.now) }
{
    if let [first, rest @ ..] = variables {
        push_variable(out, names, *first)?;
        for variable in rest {
            put(out, b" ,")?;
            push_variable(out, names, *variable)?;
        }
    }
    Ok(())
}

/// Appends the variables that values are bound to.
pub fn push_binding(out: &mut Vec<u8>, names: &Module, variables: &[u32]) -> Result<(), Memory>
    ensures { OnOk result (out.new.items ≡ out.old.items ++ binding_text names.now variables.now) }
{
    put(out, b" <")?;
    push_variables(out, names, variables)?;
    put(out, b" >")
}

/// Appends names of functions with commas between them.
pub fn push_names(out: &mut Vec<u8>, names: &Module, functions: &[FunName]) -> Result<(), Memory>
    ensures { OnOk result (out.new.items ≡ out.old.items
        ++ with_commas (map (name_text names.now) functions.now)) }
{
    if let [first, rest @ ..] = functions {
        push_name(out, names, *first)?;
        for function in rest {
            put(out, b" ,")?;
            push_name(out, names, *function)?;
        }
    }
    Ok(())
}
