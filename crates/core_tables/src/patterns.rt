ghost use Rattle.std.specs.Prelude.{◌≡◌, map, IfOk};
ghost use Rattle.core_tables.specs.code.NumberedParts.{numbered_pattern};

use crate::atom_numbers::{AtomNumbers, renamed};
use hy_core::{Module, Pattern, Text};
use hy_terms::Memory;
use sqlite_items::{Boxed, Items};
use std::alloc::{AllocError, Global};

/// A copy of a text.
pub fn copied_text(alloc: Global, text: &Text) -> Result<Text, AllocError>
    ensures { IfOk result (λ copy. copy ≡ text.now) }
{
    Ok(Text::from_vec(Vec::from_slice(alloc, text.as_slice())?))
}

// A pattern of a module with the program's atoms.
#[cycle(number)]
fn number_pattern(
    alloc: Global,
    places: &AtomNumbers,
    names: &Module,
    pattern: &Pattern,
) -> Result<Pattern, Memory>
    ensures { IfOk result (λ numbered. numbered ≡ numbered_pattern places.now
        names.now pattern.now) }
{
    match pattern {
        Pattern::Var(variable) => Ok(Pattern::Var(*variable)),
        Pattern::Int(value) => Ok(Pattern::Int(*value)),
        Pattern::Atom(atom) => Ok(Pattern::Atom(renamed(places, names, *atom))),
        Pattern::Nil => Ok(Pattern::Nil),
        Pattern::Str(text) => Ok(Pattern::Str(copied_text(alloc, text)?)),
        Pattern::Tuple(parts) => {
            let parts = number_patterns(alloc, places, names, parts.as_slice())?;
            Ok(Pattern::Tuple(parts))
        }
        Pattern::List { heads, tail } => {
            let heads = number_patterns(alloc, places, names, heads.as_slice())?;
            let tail = number_pattern(alloc, places, names, tail.get())?;
            let tail = Boxed::new(alloc, tail)?;
            Ok(Pattern::List { heads, tail })
        }
        Pattern::Alias { var, pattern } => {
            let pattern = number_pattern(alloc, places, names, pattern.get())?;
            let pattern = Boxed::new(alloc, pattern)?;
            Ok(Pattern::Alias { var: *var, pattern })
        }
    }
}

/// Patterns of a module with the program's atoms.
#[cycle(number)]
pub fn number_patterns(
    alloc: Global,
    places: &AtomNumbers,
    names: &Module,
    patterns: &[Pattern],
) -> Result<Items<Pattern>, Memory>
    ensures { IfOk result (λ numbered. numbered ≡ map (numbered_pattern places.now names.now)
        patterns.now) }
{
    let mut numbered = Items::new(alloc);
    for pattern in patterns {
        numbered.push(number_pattern(alloc, places, names, pattern)?)?;
    }
    Ok(numbered)
}
