ghost use Rattle.core_parse.specs.code.Pushdown.{checked, goal_moved, mark};
ghost use Rattle.core_parse.specs.code.Verdicts.{GivesState};

use crate::annotation::take_note;
use crate::attribute::{begin_key, begin_value};
use crate::clause::{begin_clause, take_clause_note, take_clause_rest, take_clauses};
use crate::export::{take_export_arity, take_info_export};
use crate::expr::begin_primop;
use crate::function::{
    begin_body, begin_definition_name, begin_function_name, take_definitions, take_function_arity,
    take_functions, take_info_arity,
};
use crate::goal::Goal;
use crate::list::{take_heads, take_more_heads, take_tail};
use crate::module::{begin_module, take_module_name};
use crate::name::{take_arity, take_name};
use crate::part::{take_more_parts, take_part, take_parts};
use crate::pattern::take_alias;
use crate::state::State;
use crate::symbol::want;
use crate::variable::begin_bindings;
use core_build::{StepFault, UNEXPECTED};
use hy_core::Token;
use std::alloc::Global;

/// The goal that was on top takes the token.
pub fn take(alloc: Global, goal: Goal, token: &Token, state: &mut State) -> Result<(), StepFault>
    ensures { GivesState result state.new
        (checked (mark goal token.now) (goal_moved goal state.old.goals state.old.values
        state.old.tables token.now)) }
{
    match goal {
        Goal::Symbol(symbol) => want(token, symbol),
        Goal::Part(part, level) => take_part(alloc, part, level, token, state),
        Goal::Parts(part, level, closer) => take_parts(alloc, part, level, closer, token, state),
        Goal::MoreParts(part, level, closer) => {
            take_more_parts(part, level, closer, token, state)
        }
        Goal::Heads(part, level) => take_heads(alloc, part, level, token, state),
        Goal::MoreHeads(part, level) => take_more_heads(alloc, part, level, token, state),
        Goal::Tail(part, level) => take_tail(alloc, part, level, token, state),
        Goal::NameOrAtom => take_name(token, state),
        Goal::Arity => take_arity(token, state),
        Goal::Alias(level) => take_alias(level, token, state),
        Goal::Bindings(level) => begin_bindings(level, token, state),
        Goal::Clauses(level, closer) => take_clauses(alloc, level, closer, token, state),
        Goal::Clause(level, inner) => begin_clause(alloc, level, inner, token, state),
        Goal::ClauseRest(level, _) => take_clause_rest(alloc, level, token, state),
        Goal::ClauseNote(level, inner) => take_clause_note(level, inner, token, state),
        Goal::Note(level) => take_note(level, token, state),
        Goal::Key(level) => begin_key(level, token, state),
        Goal::AttributeValue(level) => begin_value(level, token, state),
        Goal::Primop(level) => begin_primop(level, token, state),
        Goal::ExportArity => take_export_arity(token, state),
        Goal::InfoExportArity => take_info_export(token, state),
        Goal::FunctionArity => take_function_arity(token, state),
        Goal::InfoArity => take_info_arity(alloc, token, state),
        Goal::Functions(level) => take_functions(level, token, state),
        Goal::FunctionName(level) => begin_function_name(level, token, state),
        Goal::Definitions(level) => take_definitions(level, token, state),
        Goal::DefinitionName(level) => begin_definition_name(level, token, state),
        Goal::FunctionBody(level) => begin_body(level, token, state),
        Goal::Module(level) => begin_module(level, token, state),
        Goal::ModuleName => take_module_name(token, state),
        Goal::Build(_) => Err(UNEXPECTED),
    }
}
