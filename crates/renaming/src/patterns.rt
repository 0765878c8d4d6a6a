ghost use Rattle.std.specs.Prelude.{◌≡◌, ◌-◌, map, length, drop, IfOk, OnOk};
ghost use Rattle.hy_core.specs.Scopes.{with_variables, with_pattern, with_patterns};
ghost use Rattle.hy_core.specs.Syntax.{pattern_of, patterns_of};
ghost use Rattle.lifted_program.specs.Renaming.{names_for, renamed_pattern, renamed_patterns};

use crate::scope::Scope;
use hy_core::{Pattern, Text};
use hy_terms::Memory;
use sqlite_items::{Boxed, Items};
use std::alloc::{AllocError, Global};

/// A copy of a text.
pub fn copied_text(alloc: Global, text: &Text) -> Result<Text, AllocError>
    ensures { IfOk result (λ copy. copy ≡ text.now) }
{
    Ok(Text::from_vec(Vec::from_slice(alloc, text.as_slice())?))
}

/// Binds variables one after another, and gives their names.
pub fn bind_all(limit: u32, scope: &mut Scope, variables: &Items<u32>) -> Result<Items<u32>, Memory>
    ensures names { IfOk result (λ names. names ≡ names_for limit scope.old variables.now) }
    ensures scope { OnOk result (scope.new ≡ with_variables scope.old variables.now) }
    ensures back { OnOk result (drop (length scope.new - length scope.old) scope.new ≡ scope.old) }
{
    let mut names = Items::new(scope.allocator());
    for variable in variables.as_slice() {
        names.push(scope.name_for(limit, *variable)?)?;
        scope.bind(*variable)?;
    }
    Ok(names)
}

/// Binds the variables of a pattern, and gives it with their names.
#[cycle(rename_pattern)]
pub fn rename_pattern(limit: u32, scope: &mut Scope, pattern: &Pattern) -> Result<Pattern, Memory>
    ensures renamed { IfOk result (λ renamed.
        pattern_of renamed ≡ renamed_pattern limit scope.old (pattern_of pattern.now)) }
    ensures scope { OnOk result (scope.new ≡ with_pattern scope.old (pattern_of pattern.now)) }
{
    let alloc = scope.allocator();
    match pattern {
        Pattern::Var(variable) => {
            let name = scope.name_for(limit, *variable)?;
            scope.bind(*variable)?;
            Ok(Pattern::Var(name))
        }
        Pattern::Int(value) => Ok(Pattern::Int(*value)),
        Pattern::Atom(atom) => Ok(Pattern::Atom(*atom)),
        Pattern::Nil => Ok(Pattern::Nil),
        Pattern::Str(text) => Ok(Pattern::Str(copied_text(alloc, text)?)),
        Pattern::Tuple(parts) => {
            let parts = rename_patterns(limit, scope, parts.as_slice())?;
            Ok(Pattern::Tuple(parts))
        }
        Pattern::List { heads, tail } => {
            let heads = rename_patterns(limit, scope, heads.as_slice())?;
            let tail = rename_pattern(limit, scope, tail.get())?;
            let tail = Boxed::new(alloc, tail)?;
            Ok(Pattern::List { heads, tail })
        }
        Pattern::Alias { var, pattern } => {
            let name = scope.name_for(limit, *var)?;
            scope.bind(*var)?;
            let pattern = rename_pattern(limit, scope, pattern.get())?;
            let pattern = Boxed::new(alloc, pattern)?;
            Ok(Pattern::Alias { var: name, pattern })
        }
    }
}

/// Binds the variables of patterns from left to right, and gives them with their names.
#[cycle(rename_pattern)]
pub fn rename_patterns(
    limit: u32,
    scope: &mut Scope,
    patterns: &[Pattern],
) -> Result<Items<Pattern>, Memory>
    ensures renamed { IfOk result (λ renamed. patterns_of (map pattern_of renamed)
        ≡ renamed_patterns limit scope.old (patterns_of (map pattern_of patterns.now))) }
    ensures scope { OnOk result (scope.new
        ≡ with_patterns scope.old (patterns_of (map pattern_of patterns.now))) }
    ensures back { OnOk result (drop (length scope.new - length scope.old) scope.new ≡ scope.old) }
{
    let mut renamed = Items::new(scope.allocator());
    for pattern in patterns {
        renamed.push(rename_pattern(limit, scope, pattern)?)?;
    }
    Ok(renamed)
}
