ghost use Rattle.std.specs.Prelude.{◌≡◌, ◌+◌, length, OnOk};
ghost use Rattle.hy_core.specs.PatternParts.{end_patterns, within_layer};
ghost use Rattle.hy_core.specs.declared.tree.Pattern.TheViews.{out-Pattern};
ghost use Rattle.hy_core.specs.SubPatterns.{within, patterns_in, is_nil_layer};

use hy_core::Pattern;
use hy_terms::Memory;

fn is_nil(pattern: &Pattern) -> bool
    ensures { result ≡ is_nil_layer (out-Pattern pattern.now) }
{
    matches!(pattern, Pattern::Nil)
}

// Goes past one node.
fn pass(node: &mut u32) -> Result<(), Memory>
    ensures { OnOk result (node.new ≡ node.old + 1) }
{
    *node = node.checked_add(1).ok_or(Memory)?;
    Ok(())
}

// Goes past the nodes of a pattern.
#[cycle(count)]
#[tactic(auto, using(hy_core::proofs::PatternsLemmas::within_by_layer))]
fn pass_pattern(node: &mut u32, pattern: &Pattern) -> Result<(), Memory>
    ensures { OnOk result (node.new ≡ node.old + 1 + length (within pattern.now)) }
{
    pass(node)?;
    pass_within(node, pattern)
}

// Goes past the nodes inside a pattern.
#[cycle(count)]
fn pass_within(node: &mut u32, pattern: &Pattern) -> Result<(), Memory>
    ensures { OnOk result (node.new ≡ node.old + length (within_layer (out-Pattern pattern.now))) }
{
    match pattern {
        Pattern::Tuple(parts) => pass_patterns(node, parts.as_slice()),
        Pattern::List { heads, tail } => {
            pass_patterns(node, heads.as_slice())?;
            pass_end(node, tail.get())
        }
        Pattern::Alias { var: _, pattern } => pass_pattern(node, pattern.get()),
        Pattern::Var(_) | Pattern::Int(_) | Pattern::Atom(_) | Pattern::Nil | Pattern::Str(_) => {
            Ok(())
        }
    }
}

// Goes past the nodes of the tail of a list notation.
#[cycle(count)]
fn pass_end(node: &mut u32, tail: &Pattern) -> Result<(), Memory>
    ensures { OnOk result (node.new ≡ node.old + length (end_patterns tail.now)) }
{
    if is_nil(tail) {
        Ok(())
    } else {
        pass_pattern(node, tail)
    }
}

/// Goes past the nodes of patterns. `Memory` where the number of a node would pass its type.
#[cycle(count)]
pub fn pass_patterns(node: &mut u32, patterns: &[Pattern]) -> Result<(), Memory>
    ensures { OnOk result (node.new ≡ node.old + length (patterns_in patterns.now)) }
{
    for pattern in patterns {
        pass_pattern(node, pattern)?;
    }
    Ok(())
}
