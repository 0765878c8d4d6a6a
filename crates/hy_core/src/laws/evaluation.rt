ghost use Rattle.std.specs.Prelude.{ℕ, List};
ghost use Rattle.hy_terms.specs.Term.{Term};
ghost use Rattle.hy_core.specs.Computation.{Input};
ghost use Rattle.hy_core.specs.EvaluationLaws.{
  Everywhere,
  PartEndsWhole,
  PartComesFirst,
  GiveThemselves,
  BuildFromParts,
  GoOn,
  CaseChooses,
  CallsCost,
  ReceiveUsesInput,
  BuiltInsAnswer,
  EventsHappen,
  Raise,
  OnlyMoreHappens,
  NoInputsLeft,
  InputsAreDue,
};
ghost use Rattle.hy_core.specs.Match.{Env};
ghost use Rattle.hy_core.specs.Resolved.{Expression, FunctionTree};

/// A part that does not give values gives its end to the whole. Where it gives values, its events
/// stand before those of what follows.
pub fn parts_come_first()
    ensures ends_whole { PartEndsWhole }
    ensures first { PartComesFirst }
{}

/// Numbers, atoms, nil and strings give themselves, and a variable what it is bound to.
pub fn literals_give_themselves()
    ensures { Everywhere GiveThemselves }
{}

/// Tuples, list notations and values side by side are built of their parts, from left to right.
pub fn structures_are_built_from_parts()
    ensures { Everywhere BuildFromParts }
{}

/// A `let` goes on with its variables bound, a `do` without the value of its first part, and a
/// `letrec` with its functions' names bound.
pub fn bindings_go_on()
    ensures { Everywhere GoOn }
{}

/// A `case` goes on with the first clause whose patterns match and whose guard gives `'true'`.
/// Without one it raises the error `no_clause`.
pub fn case_chooses_first_clause()
    ensures { Everywhere CaseChooses }
{}

/// A call of a function costs one call. Where none is left, that is the end.
pub fn calls_cost_one_call()
    ensures { Everywhere CallsCost }
{}

/// A `receive` uses one input: a message, or a lapse where its timeout is 0. Without an input it
/// waits.
pub fn receive_uses_one_input()
    ensures { Everywhere ReceiveUsesInput }
{}

/// A built-in answers once all its arguments are evaluated, from left to right.
pub fn built_ins_answer()
    ensures { Everywhere BuiltInsAnswer }
{}

/// A send, a spawn and a print are events. A spawn then waits for the pid of the new process.
pub fn events_happen()
    ensures { Everywhere EventsHappen }
{}

/// `error`, `exit` and `throw` raise in their class. `match_fail` raises an error, with the reason
/// `function_clause` for a tuple that begins with that atom.
pub fn raises_have_a_class()
    ensures { Everywhere Raise }
{}

/// With more inputs, or with one call more, the events begin with the events before.
pub fn only_more_happens()
    ensures { (program : List FunctionTree) (atoms : List (List ℕ)) (pid : ℕ) (e : Expression) (env : Env) (calls : ℕ) (inputs : List (Input Term)) →
        OnlyMoreHappens program atoms pid e env calls inputs }
{}

/// A run without inputs leaves none.
pub fn no_inputs_are_left()
    ensures { NoInputsLeft }
{}

/// At each input that a run uses, the run on the inputs before it has done the same so far, has used
/// them up, and waits for an input of this kind.
pub fn inputs_are_due()
    ensures { InputsAreDue }
{}
