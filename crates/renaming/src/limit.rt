ghost use Rattle.std.specs.Prelude.{◌≡◌, ℕ, List, map, IfOk};
ghost use Rattle.std.specs.List.{All};
ghost use Rattle.hy_core.specs.NameFaults.{modules_of};
ghost use Rattle.hy_core.specs.ProgramTrees.{function_trees};
ghost use Rattle.hy_core.specs.Resolve.{Names};
ghost use Rattle.lifted_program.specs.Below.{FunctionBindsBelow};
ghost use Rattle.hy_core.specs.Syntax.{
  clauses_of,
  definitions_of,
  pattern_of,
  patterns_of,
  syntax_of,
  syntaxes_of,
};
ghost use Rattle.renaming.specs.RenamedSyntax.{clause_syntax, function_syntax};
ghost use Rattle.renaming.specs.VariableLimit.{
  above,
  above_all,
  above_clause,
  above_clauses,
  above_definition,
  above_definitions,
  above_each,
  above_module,
  above_pattern,
  above_patterns,
  above_syntax,
  above_syntaxes,
  variable_limit,
};

use hy_core::{Clause, Expr, Function, Module, Pattern, Program};
use hy_terms::Memory;
use sqlite_items::Items;

// Raises a limit above a variable.
fn pass(limit: &mut u64, variable: u32)
    ensures { limit.new ≡ above limit.old variable }
{
    if *limit <= variable as u64 {
        *limit = variable as u64 + 1;
    }
}

fn pass_variables(limit: &mut u64, variables: &[u32])
    ensures { limit.new ≡ above_all limit.old variables.now }
{
    for variable in variables {
        pass(limit, *variable);
    }
}

#[cycle(pass_pattern)]
fn pass_pattern(limit: &mut u64, pattern: &Pattern)
    ensures { limit.new ≡ above_pattern limit.old (pattern_of pattern.now) }
{
    match pattern {
        Pattern::Var(variable) => pass(limit, *variable),
        Pattern::Int(_) | Pattern::Atom(_) | Pattern::Nil | Pattern::Str(_) => {}
        Pattern::Tuple(parts) => pass_patterns(limit, parts.as_slice()),
        Pattern::List { heads, tail } => {
            pass_patterns(limit, heads.as_slice());
            pass_pattern(limit, tail.get());
        }
        Pattern::Alias { var, pattern } => {
            pass(limit, *var);
            pass_pattern(limit, pattern.get());
        }
    }
}

#[cycle(pass_pattern)]
fn pass_patterns(limit: &mut u64, patterns: &[Pattern])
    ensures { limit.new ≡ above_patterns limit.old (patterns_of (map pattern_of patterns.now)) }
{
    for pattern in patterns {
        pass_pattern(limit, pattern);
    }
}

// Raises a limit above what an expression binds.
#[cycle(pass_expr)]
fn pass_expr(limit: &mut u64, expr: &Expr)
    ensures { limit.new ≡ above_syntax limit.old (syntax_of expr.now) }
{
    match expr {
        Expr::Int(_) | Expr::Atom(_) | Expr::Nil | Expr::Str(_) | Expr::Var(_) | Expr::Name(_) => {}
        Expr::Tuple { site: _, parts } | Expr::Values(parts) => pass_each(limit, parts),
        Expr::List {
            site: _,
            heads,
            tail,
        } => {
            pass_each(limit, heads);
            pass_expr(limit, tail.get());
        }
        Expr::Let { vars, value, body } => {
            pass_variables(limit, vars.as_slice());
            pass_expr(limit, value.get());
            pass_expr(limit, body.get());
        }
        Expr::Do { first, second } => {
            pass_expr(limit, first.get());
            pass_expr(limit, second.get());
        }
        Expr::Case { value, clauses } => {
            pass_expr(limit, value.get());
            pass_clauses(limit, clauses);
        }
        Expr::Letrec { functions, body } => {
            pass_functions(limit, functions);
            pass_expr(limit, body.get());
        }
        Expr::Apply { what, args } => {
            pass_expr(limit, what.get());
            pass_each(limit, args);
        }
        Expr::Call { module, name, args } => {
            pass_expr(limit, module.get());
            pass_expr(limit, name.get());
            pass_each(limit, args);
        }
        Expr::Primop { name: _, args } => pass_each(limit, args),
        Expr::Receive {
            clauses,
            timeout,
            body,
        } => {
            pass_clauses(limit, clauses);
            pass_expr(limit, timeout.get());
            pass_expr(limit, body.get());
        }
        Expr::Try {
            value,
            vars,
            body,
            catch_vars,
            catch_body,
        } => {
            pass_expr(limit, value.get());
            pass_variables(limit, vars.as_slice());
            pass_expr(limit, body.get());
            pass_variables(limit, catch_vars.as_slice());
            pass_expr(limit, catch_body.get());
        }
        Expr::Catch(body) => pass_expr(limit, body.get()),
        Expr::Fun { params, body } => {
            pass_variables(limit, params.as_slice());
            pass_expr(limit, body.get());
        }
    }
}

#[cycle(pass_expr)]
fn pass_each(limit: &mut u64, exprs: &Items<Expr>)
    ensures { limit.new ≡ above_syntaxes limit.old (syntaxes_of (map syntax_of exprs.now)) }
{
    for expr in exprs.as_slice() {
        pass_expr(limit, expr);
    }
}

#[cycle(pass_expr)]
fn pass_clause(limit: &mut u64, clause: &Clause)
    ensures { limit.new ≡ above_clause limit.old (clause_syntax clause.now) }
{
    pass_patterns(limit, clause.patterns.as_slice());
    pass_expr(limit, &clause.guard);
    pass_expr(limit, &clause.body);
}

#[cycle(pass_expr)]
fn pass_clauses(limit: &mut u64, clauses: &Items<Clause>)
    ensures { limit.new ≡ above_clauses limit.old (clauses_of (map clause_syntax clauses.now)) }
{
    for clause in clauses.as_slice() {
        pass_clause(limit, clause);
    }
}

#[cycle(pass_expr)]
fn pass_function(limit: &mut u64, function: &Function)
    ensures { limit.new ≡ above_definition limit.old (function_syntax function.now) }
{
    pass_variables(limit, function.params.as_slice());
    pass_expr(limit, &function.body);
}

#[cycle(pass_expr)]
fn pass_functions(limit: &mut u64, functions: &Items<Function>)
    ensures { limit.new
        ≡ above_definitions limit.old (definitions_of (map function_syntax functions.now)) }
{
    for function in functions.as_slice() {
        pass_function(limit, function);
    }
}

fn pass_modules(limit: &mut u64, modules: &[Module])
    ensures { limit.new ≡ above_each above_module limit.old modules.now }
{
    for names in modules {
        pass_functions(limit, &names.functions);
    }
}

/// One past the greatest variable that a program binds. `Memory` where it has no number.
pub fn variable_limit(program: &Program) -> Result<u32, Memory>
    ensures greatest { IfOk result (λ limit. limit ≡ variable_limit program.now) }
    ensures below { IfOk result (λ limit. (names : Names) (sites : List ℕ)
        → All (FunctionBindsBelow limit) (function_trees names sites (modules_of program.now))) }
{
    let mut limit = 0;
    pass_modules(&mut limit, program.given.as_slice());
    pass_modules(&mut limit, program.prelude.as_slice());
    let limit = u32::try_from(limit).ok().ok_or(Memory)?;
    Ok(limit)
}
