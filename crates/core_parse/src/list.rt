ghost use Rattle.std.specs.Prelude.{◌≡◌, MatchResult, false, nat_lt, true};
ghost use Rattle.hy_core.specs.Marks.{plain};
ghost use Rattle.hy_core.specs.declared.refusal.RefusalKind.TheVariants.{TooDeep as DeepKind};
ghost use Rattle.core_build.specs.declared.fault.StepFault.TheVariants.{Refused};
ghost use Rattle.core_parse.specs.code.Pushdown.{checked, goal_moved, mark, open_list, part_mark};
ghost use Rattle.core_parse.specs.code.Verdicts.{GivesState};
ghost use Rattle.core_parse.specs.declared.goal.Goal.TheVariants as g;

use crate::goal::Goal;
use crate::level::{deeper, inside};
use crate::part::take_part;
use crate::state::State;
use crate::symbol::has_symbol;
use core_build::{Form, Part, StepFault, UNEXPECTED, add_part, close_list};
use hy_core::{Symbol, Token};
use std::alloc::Global;

/// The first head of a list notation, or its bracket.
pub fn take_heads(
    alloc: Global,
    part: Part,
    level: u32,
    token: &Token,
    state: &mut State,
) -> Result<(), StepFault>
    ensures { GivesState result state.new
        (checked (mark (g.Heads part level) token.now)
        (goal_moved (g.Heads part level) state.old.goals state.old.values
        state.old.tables token.now)) }
{
    if has_symbol(token, Symbol::CloseList) {
        return close_list(alloc, part, &mut state.values);
    }
    let inner = deeper(level)?;
    state.goals.push(Goal::MoreHeads(part, level))?;
    take_part(alloc, part, inner, token, state)
}

/// The token behind a head of a list notation: its bracket, a comma or a bar.
pub fn take_more_heads(
    alloc: Global,
    part: Part,
    level: u32,
    token: &Token,
    state: &mut State,
) -> Result<(), StepFault>
    ensures { GivesState result state.new
        (checked (plain token.now) (goal_moved (g.MoreHeads part level) state.old.goals
        state.old.values state.old.tables token.now)) }
{
    if has_symbol(token, Symbol::CloseList) {
        add_part(part, &mut state.values)?;
        return close_list(alloc, part, &mut state.values);
    }
    if has_symbol(token, Symbol::Comma) {
        add_part(part, &mut state.values)?;
        let inner = deeper(level)?;
        state
            .goals
            .push_all(&[Goal::Part(part, inner), Goal::MoreHeads(part, level)])?;
        return Ok(());
    }
    if has_symbol(token, Symbol::Bar) {
        add_part(part, &mut state.values)?;
        state.goals.push(Goal::Tail(part, level))?;
        return Ok(());
    }
    Err(UNEXPECTED)
}

// Looks at the level of a bracket in the place of a tail.
fn look_at_bracket(part: Part, level: u32) -> Result<(), StepFault>
    ensures { MatchResult result (λ _. nat_lt 400 (part_mark part level open_list).level ≡ false)
        (λ e. (nat_lt 400 (part_mark part level open_list).level ≡ true)
        × (e ≡ Refused DeepKind)) }
{
    match part {
        Part::Expr | Part::Pattern | Part::Constant => {
            inside(level)?;
            Ok(())
        }
        _ => Ok(()),
    }
}

/// The first token of the tail of a list notation. Where that is a list notation too, its heads go
/// behind those that were read.
pub fn take_tail(
    alloc: Global,
    part: Part,
    level: u32,
    token: &Token,
    state: &mut State,
) -> Result<(), StepFault>
    ensures { GivesState result state.new
        (checked (mark (g.Tail part level) token.now)
        (goal_moved (g.Tail part level) state.old.goals state.old.values
        state.old.tables token.now)) }
{
    if has_symbol(token, Symbol::OpenList) {
        look_at_bracket(part, level)?;
        state.goals.push_all(&[Goal::Heads(part, level), Goal::Symbol(Symbol::CloseList)])?;
        return Ok(());
    }
    let inner = deeper(level)?;
    state.goals.push_all(&[
        Goal::Symbol(Symbol::CloseList),
        Goal::Build(Form::Join(part)),
    ])?;
    take_part(alloc, part, inner, token, state)
}
