ghost use Rattle.std.specs.Prelude.{◌≡◌, ◌++◌, codes, map, OnOk};
ghost use Rattle.hy_core.specs.declared.tree.Module.{Module};
ghost use Rattle.hy_core.specs.Canonical.{pattern_part, pattern_text, texts_of, with_commas, list_end};

use crate::token::{push_atom_token, push_integer, push_string, push_variable, put};
use hy_core::{Module, Pattern};
use hy_terms::Memory;

fn is_nil(pattern: &Pattern) -> bool
    ensures { (names : Module) → (pattern_part names pattern.now).is_nil ≡ result }
{
    matches!(pattern, Pattern::Nil)
}

/// Appends a pattern.
#[cycle(print_pattern)]
pub fn push_pattern(out: &mut Vec<u8>, names: &Module, pattern: &Pattern) -> Result<(), Memory>
    ensures { OnOk result (out.new.items ≡ out.old.items ++ pattern_text names.now pattern.now) }
{
    match pattern {
        Pattern::Var(variable) => push_variable(out, names, *variable),
        Pattern::Int(n) => push_integer(out, *n),
        Pattern::Atom(atom) => push_atom_token(out, names, *atom),
        Pattern::Nil => put(out, b" [ ]"),
        Pattern::Str(text) => push_string(out, text.as_slice()),
        Pattern::Tuple(parts) => {
            put(out, b" {")?;
            push_patterns(out, names, parts.as_slice())?;
            put(out, b" }")
        }
        Pattern::List { heads, tail } => {
            put(out, b" [")?;
            push_patterns(out, names, heads.as_slice())?;
            push_list_end(out, names, tail.get())
        }
        Pattern::Alias { var, pattern } => {
            push_variable(out, names, *var)?;
            put(out, b" =")?;
            push_pattern(out, names, pattern.get())
        }
    }
}

/// Appends patterns with commas between them.
#[cycle(print_pattern)]
pub fn push_patterns(out: &mut Vec<u8>, names: &Module, patterns: &[Pattern]) -> Result<(), Memory>
    ensures { OnOk result (out.new.items ≡ out.old.items
        ++ with_commas (texts_of (map (pattern_part names.now) patterns.now))) }
{
    if let [first, rest @ ..] = patterns {
        push_pattern(out, names, first)?;
        for pattern in rest {
            put(out, b" ,")?;
            push_pattern(out, names, pattern)?;
        }
    }
    Ok(())
}

// Appends the end of a list notation: its tail, unless that is nil.
#[cycle(print_pattern)]
fn push_list_end(out: &mut Vec<u8>, names: &Module, tail: &Pattern) -> Result<(), Memory>
    ensures { OnOk result (out.new.items ≡ out.old.items
        ++ list_end (pattern_part names.now tail.now)) }
{
    if is_nil(tail) {
        put(out, b" ]")
    } else {
        push_tail(out, names, tail)
    }
}

// Appends a tail that isn't nil.
#[cycle(print_pattern)]
fn push_tail(out: &mut Vec<u8>, names: &Module, tail: &Pattern) -> Result<(), Memory>
    ensures { OnOk result (out.new.items ≡ out.old.items
        ++ (codes " |" ++ pattern_text names.now tail.now ++ codes " ]")) }
{
    put(out, b" |")?;
    push_pattern(out, names, tail)?;
    put(out, b" ]")
}
