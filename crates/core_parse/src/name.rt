ghost use Rattle.std.specs.Prelude.{◌≡◌};
ghost use Rattle.hy_core.specs.Marks.{plain};
ghost use Rattle.core_parse.specs.code.Pushdown.{arity_mark, arity_moved, checked, goal_moved, is_info};
ghost use Rattle.core_parse.specs.code.Verdicts.{GivesState};
ghost use Rattle.core_parse.specs.declared.goal.Goal.TheVariants as g;

use crate::goal::Goal;
use crate::number::{OUT_OF_RANGE, arity};
use crate::state::State;
use crate::symbol::want;
use core_build::{StepFault, UNEXPECTED, Value, pop_atom};
use hy_core::{Expr, FunName, Sign, Symbol, Token};

/// The slash of a function's name, behind its atom.
pub fn take_name(token: &Token, state: &mut State) -> Result<(), StepFault>
    ensures { GivesState result state.new
        (checked (plain token.now) (goal_moved g.NameOrAtom state.old.goals state.old.values
        state.old.tables token.now)) }
{
    want(token, Symbol::Slash)?;
    state.goals.push(Goal::Arity)?;
    Ok(())
}

/// The arity of a function's name whose atom is on top.
pub fn take_arity(token: &Token, state: &mut State) -> Result<(), StepFault>
    ensures { GivesState result state.new
        (checked (arity_mark token.now)
        (arity_moved state.old.goals state.old.values state.old.tables token.now)) }
{
    match token {
        Token::Integer(Sign::Absent, digits) => {
            let name = pop_atom(&mut state.values)?;
            let arity = arity(digits.as_slice()).ok_or(OUT_OF_RANGE)?;
            state
                .values
                .push(Value::Expr(Expr::Name(FunName { name, arity })))?;
            Ok(())
        }
        _ => Err(UNEXPECTED),
    }
}

/// Whether a name is `'module_info'`, which may have to be dropped.
pub fn names_info(text: &[u8]) -> bool
    ensures { result ≡ is_info text.now }
{
    text == b"module_info".as_slice()
}
