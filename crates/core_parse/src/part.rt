ghost use Rattle.hy_core.specs.Marks.{plain};
ghost use Rattle.core_parse.specs.code.Pushdown.{checked, goal_moved, mark, part_begun, part_mark};
ghost use Rattle.core_parse.specs.code.Verdicts.{GivesState};
ghost use Rattle.core_parse.specs.declared.goal.Goal.TheVariants as g;

use crate::attribute::begin_attribute;
use crate::constant::begin_constant;
use crate::export::begin_export;
use crate::expr::begin_expr;
use crate::goal::{Closer, Goal};
use crate::pattern::begin_pattern;
use crate::state::State;
use crate::symbol::has_symbol;
use crate::variable::begin_variable;
use core_build::{Part, StepFault, UNEXPECTED, add_part, open_parts};
use hy_core::{Symbol, Token};
use std::alloc::Global;

/// The first token of a part of this level.
pub fn take_part(
    alloc: Global,
    part: Part,
    level: u32,
    token: &Token,
    state: &mut State,
) -> Result<(), StepFault>
    ensures { GivesState result state.new
        (checked (part_mark part level token.now)
        (part_begun part level state.old.goals state.old.values state.old.tables token.now)) }
{
    match part {
        Part::Expr => begin_expr(alloc, level, token, state),
        Part::Pattern => begin_pattern(alloc, level, token, state),
        Part::Constant => begin_constant(level, token, state),
        Part::Variable => begin_variable(level, token, state),
        Part::Export => begin_export(level, token, state),
        Part::Attribute => begin_attribute(level, token, state),
    }
}

/// The first token of a list of parts, or what closes it.
pub fn take_parts(
    alloc: Global,
    part: Part,
    level: u32,
    closer: Closer,
    token: &Token,
    state: &mut State,
) -> Result<(), StepFault>
    ensures { GivesState result state.new
        (checked (mark (g.Parts part level closer) token.now)
        (goal_moved (g.Parts part level closer) state.old.goals state.old.values
        state.old.tables token.now)) }
{
    open_parts(alloc, part, &mut state.values)?;
    if has_symbol(token, closer.symbol()) {
        return Ok(());
    }
    state.goals.push(Goal::MoreParts(part, level, closer))?;
    take_part(alloc, part, level, token, state)
}

/// The token behind a part: a comma, or what closes the list.
pub fn take_more_parts(
    part: Part,
    level: u32,
    closer: Closer,
    token: &Token,
    state: &mut State,
) -> Result<(), StepFault>
    ensures { GivesState result state.new
        (checked (plain token.now) (goal_moved (g.MoreParts part level closer) state.old.goals
        state.old.values state.old.tables token.now)) }
{
    if has_symbol(token, closer.symbol()) {
        return add_part(part, &mut state.values);
    }
    if has_symbol(token, Symbol::Comma) {
        add_part(part, &mut state.values)?;
        state.goals.push_all(&[
            Goal::Part(part, level),
            Goal::MoreParts(part, level, closer),
        ])?;
        return Ok(());
    }
    Err(UNEXPECTED)
}
