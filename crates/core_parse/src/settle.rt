ghost use Rattle.core_parse.specs.code.Pushdown.{settled};
ghost use Rattle.core_parse.specs.code.Verdicts.{GivesGoal};

use crate::goal::Goal;
use crate::state::State;
use crate::symbol::is;
use core_build::{StepFault, build_atom, build_form};
use hy_core::Symbol;
use std::alloc::Global;

/// Takes the goal off the stack that is to take the next token, which may be a symbol. Trees whose
/// parts are read are built before, and goals that may be nothing are passed over where the symbol
/// doesn't go on with them.
#[tactic(auto, unfolding(crate::specs::code::Pushdown::settled))]
pub fn next_goal(
    alloc: Global,
    next: Option<Symbol>,
    state: &mut State,
) -> Result<Option<Goal>, StepFault>
    ensures { GivesGoal result state.new
        (settled state.old.goals state.old.values state.old.tables next) }
{
    while let Some(goal) = state.goals.pop() {
        match goal {
            Goal::Build(form) => {
                build_form(alloc, form, &mut state.values, &mut state.tables)?;
            }
            Goal::NameOrAtom => {
                if is(next, Symbol::Slash) {
                    return Ok(Some(goal));
                }
                build_atom(&mut state.values)?;
            }
            Goal::Alias(_) => {
                if is(next, Symbol::Equals) {
                    return Ok(Some(goal));
                }
            }
            Goal::ClauseRest(_, true) => {
                if is(next, Symbol::When) {
                    return Ok(Some(goal));
                }
            }
            _ => return Ok(Some(goal)),
        }
    }
    Ok(None)
}
