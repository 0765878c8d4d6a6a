ghost use Rattle.std.specs.Prelude.{◌≡◌, ℕ, Bool, ◌+◌, ◌-◌, ◌≤◌, false, map, drop, length, IfOk, OnOk};
ghost use Rattle.hy_core.specs.Resolved.{TheTuple};
ghost use Rattle.hy_core.specs.Syntax.{pattern_of, patterns_of};
ghost use Rattle.lowered_code.specs.LoweredPatterns.{Checks as AnyChecks, tested, tested_all, tested_heads, tested_parts, with_variable};
ghost use Rattle.program_code.specs.HeldRegisters.{Held};

use crate::checks::Checks;
use crate::registers::register_at;
use crate::scope::Scope;
use hy_core::{Pattern, Text};
use hy_ir::Test;
use hy_terms::Memory;
use std::alloc::{AllocError, Global};

// The value that a pattern is tested on: its register, and whether a test stands around it.
#[derive(Clone, Copy)]
struct Subject {
    from: u32,
    inside: bool,
}

/// A copy of a text.
pub fn copied_text(alloc: Global, text: &Text) -> Result<Text, AllocError>
    ensures { IfOk result (λ copy. copy ≡ text.now) }
{
    Ok(Text::from_vec(Vec::from_slice(alloc, text.as_slice())?))
}

// Binds a variable: to the out of the test around it, or of one of its own.
fn bind_variable(
    variable: u32,
    subject: Subject,
    scope: &mut Scope,
    checks: &mut Checks,
) -> Result<(), Memory>
    ensures { OnOk result ((scope.new, checks.new)
        ≡ with_variable subject.inside variable subject.from (scope.old, checks.old)) }
{
    if subject.inside {
        scope.bind(variable, subject.from)
    } else {
        scope.bind(variable, checks.bind(subject.from)?)
    }
}

// The tests of a pattern.
#[cycle(tests)]
fn test_pattern(
    pattern: &Pattern,
    subject: Subject,
    scope: &mut Scope,
    checks: &mut Checks,
) -> Result<(), Memory>
    ensures { OnOk result ((scope.new, checks.new)
        ≡ tested subject.inside (pattern_of pattern.now) subject.from (scope.old, checks.old)) }
{
    let from = subject.from;
    match pattern {
        Pattern::Var(variable) => bind_variable(*variable, subject, scope, checks),
        Pattern::Int(value) => checks.test(Test::IsInt {
            from,
            value: *value,
        }),
        Pattern::Atom(atom) => checks.test(Test::IsAtom { from, atom: *atom }),
        Pattern::Nil => checks.test(Test::IsNil { from }),
        Pattern::Str(text) => {
            let text = copied_text(checks.allocator(), text)?;
            checks.test(Test::IsText { from, text })
        }
        Pattern::Tuple(parts) => test_tuple(parts.as_slice(), from, scope, checks),
        Pattern::List { heads, tail } => {
            let subject = test_heads(heads.as_slice(), subject, scope, checks)?;
            test_pattern(tail.get(), subject, scope, checks)
        }
        Pattern::Alias { var, pattern } => {
            bind_variable(*var, subject, scope, checks)?;
            test_pattern(pattern.get(), subject, scope, checks)
        }
    }
}

// The test of a tuple, and those of its parts.
#[tactic(auto, using(crate::proofs::PatternLemmas::count_is))]
#[cycle(tests)]
fn test_tuple(
    parts: &[Pattern],
    from: u32,
    scope: &mut Scope,
    checks: &mut Checks,
) -> Result<(), Memory>
    ensures { OnOk result ((scope.new, checks.new) ≡ tested false
        (TheTuple (patterns_of (map pattern_of parts.now))) from (scope.old, checks.old)) }
{
    let first = checks.tuple(from, parts.len())?;
    test_parts(parts, first, scope, checks)
}

// The tests of the parts of a tuple, which are in registers from the first on.
#[cycle(tests)]
fn test_parts(
    parts: &[Pattern],
    first: u32,
    scope: &mut Scope,
    checks: &mut Checks,
) -> Result<(), Memory>
    requires { first + length parts.now ≤ 4294967295 }
    ensures { OnOk result ((scope.new, checks.new) ≡ tested_parts
        (patterns_of (map pattern_of parts.now)) first (scope.old, checks.old)) }
{
    let mut from = first;
    for part in parts {
        let subject = Subject { from, inside: true };
        test_pattern(part, subject, scope, checks)?;
        from += 1;
    }
    Ok(())
}

// The tests of the heads of a list notation, a cons for each. Gives on what the tail is tested.
#[cycle(tests)]
fn test_heads(
    heads: &[Pattern],
    subject: Subject,
    scope: &mut Scope,
    checks: &mut Checks,
) -> Result<Subject, Memory>
    ensures { IfOk result (λ rest. (tail : Bool → ℕ → Held × AnyChecks → Held × AnyChecks)
        → tested_heads subject.inside (patterns_of (map pattern_of heads.now)) tail subject.from
        (scope.old, checks.old) ≡ tail rest.inside rest.from (scope.new, checks.new)) }
{
    let mut from = subject.from;
    let mut inside = subject.inside;
    for head in heads {
        let first = checks.cons(from)?;
        let subject = Subject {
            from: first,
            inside: true,
        };
        test_pattern(head, subject, scope, checks)?;
        from = first + 1;
        inside = true;
    }
    Ok(Subject { from, inside })
}

/// The tests of patterns on values in registers, which no test gave to them.
pub fn test_all(
    patterns: &[Pattern],
    registers: &[u32],
    scope: &mut Scope,
    checks: &mut Checks,
) -> Result<(), Memory>
    ensures tests { OnOk result ((scope.new, checks.new)
        ≡ tested_all (patterns_of (map pattern_of patterns.now)) registers.now
        (scope.old, checks.old)) }
    ensures back { OnOk result (drop (length scope.new - length scope.old) scope.new ≡ scope.old) }
{
    let mut place: usize = 0;
    for pattern in patterns {
        let subject = Subject {
            from: register_at(registers, place),
            inside: false,
        };
        test_pattern(pattern, subject, scope, checks)?;
        place += 1;
    }
    Ok(())
}
