ghost use Rattle.std.specs.Prelude.{Some};
ghost use Rattle.hy_core.specs.Marks.{plain, symbol as symbol_mark};
ghost use Rattle.core_parse.specs.code.Pushdown.{checked, goal_moved, note_rest};
ghost use Rattle.core_parse.specs.code.Verdicts.{GivesState};
ghost use Rattle.core_parse.specs.declared.goal.Goal.TheVariants as g;
ghost use Rattle.hy_core.specs.declared.token.Symbol.TheVariants as symbols;

use crate::goal::{Closer, Goal};
use crate::level::deeper;
use crate::state::State;
use crate::symbol::want;
use core_build::{Part, StepFault};
use hy_core::{Symbol, Token};

/// The bar of an annotation.
pub fn take_note(level: u32, token: &Token, state: &mut State) -> Result<(), StepFault>
    ensures { GivesState result state.new
        (checked (plain token.now) (goal_moved (g.Note level) state.old.goals state.old.values
        state.old.tables token.now)) }
{
    want(token, Symbol::NoteBar)?;
    push_note_rest(level, state)
}

/// The constants of an annotation are to be read, behind its bar.
pub fn push_note_rest(level: u32, state: &mut State) -> Result<(), StepFault>
    ensures { GivesState result state.new
        (checked (symbol_mark symbols.NoteBar)
        (Some (record {
          goals = note_rest level state.old.goals;
          values = state.old.values;
          tables = state.old.tables;
        }))) }
{
    let inner = deeper(level)?;
    state.goals.push_all(&[
        Goal::Symbol(Symbol::OpenList),
        Goal::Parts(Part::Constant, inner, Closer::List),
        Goal::Symbol(Symbol::Close),
    ])?;
    Ok(())
}
