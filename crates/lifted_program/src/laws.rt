//! Laws of lifting. Each function does nothing: its clause is the law.

ghost use Rattle.hy_core.specs.Machine.{Process};
ghost use Rattle.hy_core.specs.declared.end.Cause.{Cause};
ghost use Rattle.hy_terms.specs.Term.{Term};
ghost use Rattle.lifted_program.specs.AcceptedLifted.{AcceptedProgramsRun};
ghost use Rattle.lifted_program.specs.LiftingLaws.{
  LiftedBindsApart,
  LiftedIsFlat,
  LiftedIsKnown,
  LiftedProgramsRun,
  LiftingKeepsMeaning,
  RenamedBindsApart,
  RenamedIsKnown,
  RenamedOnlyWhereNeeded,
  RenamingKeepsMeaning,
};
ghost use Rattle.lifted_program.specs.WorkedLifting.{
  InnerFunctionsAreLifted,
  InnerFunctionsDoTheSame,
  MutualFunctionsAreLifted,
};

/// A renamed program does what the program does: each of its functions has the same runs in each
/// process, with the same calls. It holds of every program. A known program in which no binding
/// stands in the scope of another of its variable, with variables below the limit, stays as it is.
pub fn renaming_keeps_meaning()
    ensures keeps { RenamingKeepsMeaning }
    ensures needed { RenamedOnlyWhereNeeded }
{}

/// A lifted program does what the program does: each function of a module has the same events and
/// inputs in the same order, calls left, inputs left and end, in each process and with all
/// arguments and inputs. Two `receive`s that wait are compared by their timeouts and by what they
/// accept.
pub fn lifting_keeps_meaning()
    ensures { LiftingKeepsMeaning }
{}

/// Which processes are stopped, with which cause.
pub trait Stopping {
    ghost stopped: { Process Term → Cause → Type 0 };
}

/// Each full run of a program from a function of a module on is a full run of the lifted program,
/// with the same ends and the same output, and the other way round.
pub fn lifted_programs_run<S>()
where
    S: Stopping,
    ensures { LiftedProgramsRun S.stopped }
{}

/// The full runs of an accepted program of at least one module are those of its lifted program from
/// the same function on: with the same steps, ends and output.
pub fn accepted_programs_run_lifted<S>()
where
    S: Stopping,
    ensures { AcceptedProgramsRun S.stopped }
{}

/// A lifted program has no `letrec` left, and no call of a function of one. In a renamed program no
/// binding stands in the scope of another of its variable, parameters and captured variables
/// included, and lifting leaves it so.
pub fn lifted_programs_are_flat()
    ensures flat { LiftedIsFlat }
    ensures renamed { RenamedBindsApart }
    ensures apart { LiftedBindsApart }
{}

/// What is known of the trees of a program is known of the renamed and of the lifted ones:
/// variables are bound, what is called is there and takes as many arguments as it is given, each
/// part gives as many values as its place needs, guards are of the forms of guards, and none is
/// refused.
pub fn lifted_programs_are_known()
    ensures renamed { RenamedIsKnown }
    ensures lifted { LiftedIsKnown }
{}

/// Two small programs are lifted to two others, and their functions capture exactly what is passed:
/// functions that apply each other, beside a `let` whose variable gets a new name; and a function
/// in another one that applies a function of the `letrec` around. The second is computed as it was
/// and as it is lifted, with the same value and the same calls.
pub fn lifting_by_examples()
    ensures each_other { MutualFunctionsAreLifted }
    ensures inner { InnerFunctionsAreLifted }
    ensures computed { InnerFunctionsDoTheSame }
{}
