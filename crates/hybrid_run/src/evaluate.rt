ghost use Rattle.std.specs.Prelude.{◌≡◌, ◌↔◌, ℕ, List, [], ◌∷◌, ◌++◌, Contains, IsTrue, IfOk, OnOk, Some};
ghost use Rattle.hy_terms.specs.Range.{IsNumber};
ghost use Rattle.hybrid_run.specs.Built.{IsClosed};
ghost use Rattle.hy_core.specs.BuiltIn.{answer};
ghost use Rattle.hy_core.specs.Evaluation.{answer_end};
ghost use Rattle.hy_core.specs.Match.{lookup};
ghost use Rattle.hy_core.specs.declared.bif.Bif.TheVariants.{Add};
ghost use Rattle.hybrid_run.specs.declared.value.Ending.TheVariants.{Gives};
ghost use Rattle.hybrid_run.specs.declared.value.Value.TheVariants.{True};
ghost use Rattle.hybrid_run.specs.Headline.{HasRun};
ghost use Rattle.hybrid_run.specs.code.Ready.{IsReady};
ghost use Rattle.hy_core.specs.declared.tree.Module.{Module};
ghost use Rattle.hybrid_run.specs.Arithmetic.{term_of, outcome_of, env_of, variables_of, Evaluates, EvaluatesUnder, EvaluatesCall, IsCall};

use crate::value::{Ending, Reason, Value};
use hy_core::{Expr, Program};
use hy_terms::{GREATEST_NUMBER, LEAST_NUMBER, Memory};
use std::alloc::Global;

/// A variable and what it is bound to.
#[derive(Clone, Copy, Debug, PartialEq, Eq)]
pub struct Binding {
    pub var: u32,
    pub value: Value,
}

/// What a program displays, in order, and how it ends.
#[derive(Drop)]
pub struct Outcome {
    pub printed: Vec<Value>,
    pub ending: Ending,
}

/// Runs the first function of a program of the six forms, which has its own numbers.
pub fn evaluate_program(alloc: Global, program: &Program) -> Result<Outcome, Memory>
    requires { (zs : List Module) × IsReady zs program.now }
    ensures { (zs : List Module) → IsReady zs program.now →
        IfOk result (λ outcome. HasRun zs outcome.printed.items outcome.ending) }
{
    let [module] = program.given.as_slice() else {
        unreachable!()
    };
    let [main] = module.functions.as_slice() else {
        unreachable!()
    };
    let mut env = Vec::new(alloc);
    let mut printed = Vec::new(alloc);
    let ending = evaluate(&main.body, &mut env, &mut printed)?;
    Ok(Outcome { printed, ending })
}

/// Evaluates an expression of the arithmetic forms, under its bindings, the last of them innermost.
/// What it displays is appended to `printed`, in order.
#[cycle(evaluate)]
pub fn evaluate(
    expr: &Expr,
    env: &mut Vec<Binding>,
    printed: &mut Vec<Value>,
) -> Result<Ending, Memory>
    requires { (atoms : List (List ℕ)) × IsClosed atoms (variables_of env.old.items) expr.now }
    ensures evaluates { IfOk result (λ ending.
        Evaluates expr.now env.old.items printed.old.items printed.new.items ending) }
    ensures env { OnOk result (env.new.items ≡ env.old.items) }
{
    match expr {
        Expr::Int(n) => Ok(Ending::Gives(Value::Int(*n))),
        Expr::Var(var) => Ok(Ending::Gives(value_of(env.as_slice(), *var))),
        Expr::Let { vars, value, body } => match evaluate(value.get(), env, printed)? {
            Ending::Gives(value) => evaluate_under(
                vars.as_slice(),
                value,
                body.get(),
                env,
                printed,
            ),
            Ending::Raises(reason) => Ok(Ending::Raises(reason)),
        },
        Expr::Do { first, second } => match evaluate(first.get(), env, printed)? {
            Ending::Gives(_) => evaluate(second.get(), env, printed),
            Ending::Raises(reason) => Ok(Ending::Raises(reason)),
        },
        Expr::Call { args, .. } => evaluate_call(args.as_slice(), env, printed),
        _ => unreachable!(),
    }
}

// Evaluates the body of a `let` under its variable.
#[cycle(evaluate)]
fn evaluate_under(
    vars: &[u32],
    value: Value,
    body: &Expr,
    env: &mut Vec<Binding>,
    printed: &mut Vec<Value>,
) -> Result<Ending, Memory>
    requires { (atoms : List (List ℕ)) × (var : ℕ) × (vars.now ≡ var ∷ []) ×
        IsClosed atoms (var ∷ variables_of env.old.items) body.now }
    ensures evaluates { IfOk result (λ ending. EvaluatesUnder vars.now value body.now
        env.old.items printed.old.items printed.new.items ending) }
    ensures env { OnOk result (env.new.items ≡ env.old.items) }
{
    let [var] = vars else { unreachable!() };
    env.push(Binding { var: *var, value })?;
    let ending = evaluate(body, env, printed);
    env.pop();
    ending
}

// A call with one argument is `display`, and one with two is `+`: no other call is of these forms.
#[cycle(evaluate)]
fn evaluate_call(
    args: &[Expr],
    env: &mut Vec<Binding>,
    printed: &mut Vec<Value>,
) -> Result<Ending, Memory>
    requires { (atoms : List (List ℕ)) × IsCall atoms (variables_of env.old.items) args.now }
    ensures evaluates { IfOk result (λ ending.
        EvaluatesCall args.now env.old.items printed.old.items printed.new.items ending) }
    ensures env { OnOk result (env.new.items ≡ env.old.items) }
{
    match args {
        [shown] => match evaluate(shown, env, printed)? {
            Ending::Gives(value) => display(value, printed),
            Ending::Raises(reason) => Ok(Ending::Raises(reason)),
        },
        [left, right] => match evaluate(left, env, printed)? {
            Ending::Gives(left) => match evaluate(right, env, printed)? {
                Ending::Gives(right) => Ok(sum(left, right)),
                Ending::Raises(reason) => Ok(Ending::Raises(reason)),
            },
            Ending::Raises(reason) => Ok(Ending::Raises(reason)),
        },
        _ => unreachable!(),
    }
}

fn display(value: Value, printed: &mut Vec<Value>) -> Result<Ending, Memory>
    ensures { IfOk result (λ ending.
        (ending ≡ Gives True) × (printed.new.items ≡ printed.old.items ++ value ∷ [])) }
{
    printed.push(value)?;
    Ok(Ending::Gives(Value::True))
}

fn sum(left: Value, right: Value) -> Ending
    ensures { (atoms : List (List ℕ)) (pid : ℕ) →
        outcome_of result ≡ answer_end (answer atoms pid Add (term_of left ∷ term_of right ∷ [])) }
{
    match (left, right) {
        (Value::Int(left), Value::Int(right)) => match left.checked_add(right) {
            Some(n) if is_number(n) => Ending::Gives(Value::Int(n)),
            _ => Ending::Raises(Reason::SystemLimit),
        },
        _ => Ending::Raises(Reason::Badarith),
    }
}

// Whether a number is in the range of the language.
fn is_number(n: i64) -> bool
    ensures { IsTrue result ↔ IsNumber n }
{
    LEAST_NUMBER <= n && n <= GREATEST_NUMBER
}

// The value of the innermost binding of a variable.
fn value_of(env: &[Binding], var: u32) -> Value
    requires { Contains (variables_of env.now) var }
    ensures { lookup var (env_of env.now) ≡ Some (term_of result) }
{
    match env {
        [outer @ .., last] => {
            if last.var == var {
                last.value
            } else {
                value_of(outer, var)
            }
        }
        [] => unreachable!(),
    }
}
