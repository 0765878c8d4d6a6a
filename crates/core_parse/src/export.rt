ghost use Rattle.core_parse.specs.code.Pushdown.{annotation_mark, arity_mark, checked, export_arity_moved, export_begun, info_export_moved};
ghost use Rattle.core_parse.specs.code.Verdicts.{GivesState};

use crate::goal::Goal;
use crate::interning::number_of;
use crate::level::inside;
use crate::name::names_info;
use crate::number::{OUT_OF_RANGE, arity};
use crate::state::State;
use core_build::{Part, StepFault, UNEXPECTED, Value, add_name, keep_names, pop_atom, pop_names};
use hy_core::{FunName, Sign, Symbol, Token};

/// The first token of an exported name. The number of `'module_info'` is put off until its arity
/// tells whether it is kept.
pub fn begin_export(level: u32, token: &Token, state: &mut State) -> Result<(), StepFault>
    ensures { GivesState result state.new
        (checked (annotation_mark level token.now)
        (export_begun level state.old.goals state.old.values state.old.tables token.now)) }
{
    match token {
        Token::Atom(text) => {
            if names_info(text.as_slice()) {
                state
                    .goals
                    .push_all(&[Goal::Symbol(Symbol::Slash), Goal::InfoExportArity])?;
                return Ok(());
            }
            let atom = number_of(&mut state.tables.atoms, text.as_slice())?;
            state.values.push(Value::Atom(atom))?;
            state
                .goals
                .push_all(&[Goal::Symbol(Symbol::Slash), Goal::ExportArity])?;
            Ok(())
        }
        Token::Symbol(Symbol::Open) => {
            let inner = inside(level)?;
            state
                .goals
                .push_all(&[Goal::Part(Part::Export, inner), Goal::Note(level)])?;
            Ok(())
        }
        _ => Err(UNEXPECTED),
    }
}

/// The arity of an exported name whose atom is on top.
pub fn take_export_arity(token: &Token, state: &mut State) -> Result<(), StepFault>
    ensures { GivesState result state.new
        (checked (arity_mark token.now)
        (export_arity_moved state.old.goals state.old.values state.old.tables token.now)) }
{
    match token {
        Token::Integer(Sign::Absent, digits) => match arity(digits.as_slice()) {
            Some(arity) => {
                let name = pop_atom(&mut state.values)?;
                add_name(FunName { name, arity }, &mut state.values)
            }
            None => {
                pop_atom(&mut state.values)?;
                pop_names(&mut state.values)?;
                Err(OUT_OF_RANGE)
            }
        },
        _ => Err(UNEXPECTED),
    }
}

/// The arity of an export `'module_info'`, which is dropped where it is 0 or 1.
pub fn take_info_export(token: &Token, state: &mut State) -> Result<(), StepFault>
    ensures { GivesState result state.new
        (checked (arity_mark token.now)
        (info_export_moved state.old.goals state.old.values state.old.tables token.now)) }
{
    match token {
        Token::Integer(Sign::Absent, digits) => match arity(digits.as_slice()) {
            Some(arity) => {
                if arity <= 1 {
                    return keep_names(&mut state.values);
                }
                let name = number_of(&mut state.tables.atoms, b"module_info")?;
                add_name(FunName { name, arity }, &mut state.values)
            }
            None => {
                pop_names(&mut state.values)?;
                Err(OUT_OF_RANGE)
            }
        },
        _ => Err(UNEXPECTED),
    }
}
