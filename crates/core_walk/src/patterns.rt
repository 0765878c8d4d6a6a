ghost use Rattle.std.specs.Prelude.{◌≡◌, ◌++◌, OnOk};
ghost use Rattle.hy_core.specs.SubPatterns.{variables, clause_variables};

use crate::scope::Scope;
use hy_core::Pattern;
use hy_terms::Memory;

// Appends the variables of a pattern.
#[cycle(push)]
fn push_pattern(out: &mut Vec<u32>, pattern: &Pattern) -> Result<(), Memory>
    ensures { OnOk result (out.new.items ≡ out.old.items ++ variables pattern.now) }
{
    match pattern {
        Pattern::Var(variable) => {
            out.push(*variable)?;
            Ok(())
        }
        Pattern::Int(_) | Pattern::Atom(_) | Pattern::Nil | Pattern::Str(_) => Ok(()),
        Pattern::Tuple(parts) => push_variables(out, parts.as_slice()),
        Pattern::List { heads, tail } => {
            push_variables(out, heads.as_slice())?;
            push_pattern(out, tail.get())
        }
        Pattern::Alias { var, pattern } => {
            out.push(*var)?;
            push_pattern(out, pattern.get())
        }
    }
}

/// Appends the variables of patterns.
#[cycle(push)]
pub fn push_variables(out: &mut Vec<u32>, patterns: &[Pattern]) -> Result<(), Memory>
    ensures { OnOk result (out.new.items ≡ out.old.items ++ clause_variables patterns.now) }
{
    for pattern in patterns {
        push_pattern(out, pattern)?;
    }
    Ok(())
}

/// Binds the variables of patterns.
pub fn bind_patterns(scope: &mut Scope, patterns: &[Pattern]) -> Result<(), Memory>
    ensures { OnOk result (scope.new ≡ scope.old ++ clause_variables patterns.now) }
{
    let mut variables = Vec::new(scope.allocator());
    push_variables(&mut variables, patterns)?;
    scope.bind_all(variables.as_slice())
}
