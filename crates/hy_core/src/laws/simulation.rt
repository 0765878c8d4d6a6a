ghost use Rattle.std.specs.Prelude.{ℕ, List};
ghost use Rattle.hy_core.specs.BehaviourLaws.{
  SameFullRuns,
  SameProgramsRun,
  SameRunsBehaveTheSame,
  SameStepsAllowed,
  SimulatedProgramIsSame,
};
ghost use Rattle.hy_core.specs.Evaluation.{Callee};
ghost use Rattle.hy_core.specs.ComparisonLaws.{
  ComparesWithItself,
  Composes,
  ComposesOverSame,
  SameInResult,
  SameIsEqual,
  WaitsAlike,
};
ghost use Rattle.hy_core.specs.Machine.{Process};
ghost use Rattle.hy_core.specs.declared.end.Cause.{Cause};
ghost use Rattle.hy_terms.specs.Term.{Term};
ghost use Rattle.hy_core.specs.SimulationLaws.{
  GoesThroughParts,
  MapsParts,
  RunsTheSame,
  SimulatedByMapped,
  SimulatesItself,
  SkipsUnseen,
};

/// Each run is the same as itself.
pub fn runs_compare_with_themselves<Value, Class, Act, Wait>()
    ensures { ComparesWithItself Value Class Act Wait }
{}

/// Over the same values, and where each act is shown, runs that are the same are equal: in the
/// events and uses of inputs in their order, in the calls and the inputs left, and in the end.
/// Where the end is a `receive` that waits, `waits_are_alike` says what is the same.
pub fn same_runs_are_equal<Value, Class, Act, Wait>()
    ensures { SameIsEqual Value Class Act Wait }
{}

/// Comparison composes: of three runs, where the first and the second are the same and the second
/// and the third, so are the first and the third. The values of the third stand for those that
/// their values in the second stand for, and its acts show what is shown of what they show.
pub fn comparison_composes<
    Value,
    NextValue,
    LastValue,
    Class,
    Act,
    NextAct,
    LastAct,
    Wait,
    NextWait,
    LastWait,
>()
    ensures { Composes Value NextValue LastValue Class Act NextAct LastAct Wait NextWait LastWait }
{}

/// Of three runs, where the first and the second are the same over the same values, each act shown,
/// and the second and the third are the same, so are the first and the third: a pass over programs
/// may stand before one into other values.
pub fn comparison_composes_over_the_same_values<
    Value,
    NextValue,
    Class,
    Act,
    NextAct,
    Wait,
    NextWait,
    LastWait,
>()
    ensures { ComposesOverSame Value NextValue Class Act NextAct Wait NextWait LastWait }
{}

/// Where a run waits in a `receive`, one that is the same does too, with the same timeout, and for
/// each message both accept it or neither does.
pub fn waits_are_alike<Value, NextValue, Class, Act, NextAct, Wait, NextWait>()
    ensures { WaitsAlike Value NextValue Class Act NextAct Wait NextWait }
{}

/// Runs that are the same have the same events, calls left, inputs left and end.
pub fn same_runs_have_the_same_results<Value, NextValue, Class, Act, NextAct, Wait, NextWait>()
    ensures { SameInResult Value NextValue Class Act NextAct Wait NextWait }
{}

/// Which calls of a second meaning stand for which calls of a first, and which acts the first may
/// do. The call that stands for another may have more arguments, as those of captured variables.
pub trait Correspondence<Value, Callee, Act, NextValue, NextCallee> {
    ghost calls: { Callee → List Value → NextCallee → List NextValue → Type 0 };

    ghost allowed: { Act → Type 0 };
}

/// A computation simulates itself, where each call stands for itself.
pub fn computations_simulate_themselves<Value, Class, Callee, Act, Wait>()
    ensures { SimulatesItself Value Class Callee Act Wait }
{}

/// A computation simulates another where it differs in the functions that it calls and in what its
/// `receive`s wait for, if their timeouts and the messages that they accept are the same.
pub fn mapped_computations_simulate<Value, Class, Callee, NextCallee, Act, Wait, NextWait>()
    ensures simulates { SimulatedByMapped Value Class Callee NextCallee Act Wait NextWait }
    ensures parts { MapsParts Value Class Callee NextCallee Act Wait NextWait }
{}

/// A computation may do acts that show nothing before it does what it simulates.
pub fn unseen_acts_are_skipped<
    Value,
    NextValue,
    Class,
    Callee,
    NextCallee,
    Act,
    NextAct,
    Wait,
    NextWait,
    Relation,
>()
where
    Relation: Correspondence<Value, Callee, Act, NextValue, NextCallee>,
    ensures { SkipsUnseen Class NextAct Wait NextWait Relation.allowed Relation.calls }
{}

/// Simulation goes through a part: where a part is simulated, what follows its values and what
/// follows what it raises, then so is the whole.
pub fn simulation_goes_through_parts<
    Value,
    NextValue,
    Class,
    Callee,
    NextCallee,
    Act,
    NextAct,
    Wait,
    NextWait,
    Relation,
>()
where
    Relation: Correspondence<Value, Callee, Act, NextValue, NextCallee>,
    ensures { GoesThroughParts Class NextAct Wait NextWait Relation.allowed Relation.calls }
{}

/// Where the bodies of calls that stand for each other simulate each other, a computation that
/// simulates another has the same run as it, for each number of calls and each list of inputs, and
/// each act of that run is an allowed one. Both spend the same calls.
pub fn simulation_keeps_runs<
    Value,
    NextValue,
    Class,
    Callee,
    NextCallee,
    Act,
    NextAct,
    Done,
    Wait,
    NextWait,
    Relation,
>()
where
    Relation: Correspondence<Value, Callee, Act, NextValue, NextCallee>,
    ensures { RunsTheSame Class NextAct Wait NextWait Relation.allowed Relation.calls Done }
{}

/// Which functions a process may begin with, and which processes are stopped, with which cause.
pub trait Setting<Value> {
    ghost known: { ℕ → Type 0 };

    ghost stopped: { Process Value → Cause → Type 0 };
}

/// Processes whose runs are the same, with as many calls, behave the same. An act of the second
/// may be no event.
pub fn same_runs_behave_the_same<Value, NextValue, Done, Wait, NextWait, S>()
where
    S: Setting<Value>,
    ensures { SameRunsBehaveTheSame Value NextValue Done Wait NextWait S.known }
{}

/// Of processes that behave the same, the machine allows the same steps. After the same steps they
/// stand the same, and have written the same.
pub fn same_steps_are_allowed<Value, NextValue, Wait, NextWait, S>()
where
    S: Setting<Value>,
    ensures { SameStepsAllowed Value NextValue Wait NextWait S.known }
{}

/// Of processes that behave the same, the same runs are full, with the same ends and the same
/// output.
pub fn same_runs_are_full<Value, NextValue, Wait, NextWait, S>()
where
    S: Setting<Value>,
    ensures { SameFullRuns Value NextValue Wait NextWait S.known S.stopped }
{}

/// The same of a program's processes, and which calls of one program stand for which of another.
pub trait ProgramSetting {
    ghost known: { ℕ → Type 0 };

    ghost stopped: { Process Term → Cause → Type 0 };

    ghost calls: { Callee → List Term → Callee → List Term → Type 0 };
}

/// Two programs do the same where the bodies of calls that stand for each other simulate each
/// other, and each known function stands for itself.
pub fn simulated_programs_are_the_same<S>()
where
    S: ProgramSetting,
    ensures { SimulatedProgramIsSame S.known S.calls }
{}

/// Where the functions of two programs do the same in each process, with all arguments and inputs,
/// each full run of one is a full run of the other, with the same ends and the same output.
pub fn same_programs_have_the_same_runs<S>()
where
    S: ProgramSetting,
    ensures { SameProgramsRun S.known S.stopped }
{}
