ghost use Rattle.std.specs.Prelude.{ℕ, List};
ghost use Rattle.hy_core.specs.Resolved.{FunctionTree};
ghost use Rattle.hy_core.specs.RunLaws.{FullRunsAreLast, ProgramsEndOnce, AreNotAllowed, AreNotFull};

/// A run that is full with no process stopped allows no further step, and its steps determine how each
/// process ends and what is written. So it is of a program, with its own atoms, functions and sites.
pub fn full_runs_are_last()
    ensures programs { ProgramsEndOnce }
    ensures functions { (program : List FunctionTree) (atoms : List (List ℕ)) (calls main : ℕ) →
        FullRunsAreLast program atoms calls main }
{}

/// No run has an event at a later place than the next, takes or lapses while an event is left, tells
/// another number of events at a lapse, takes a message twice, or lapses without a timeout. None is full
/// where an event is left, a text is another, a timeout is 0, a message is accepted, or a process is left
/// out.
pub fn some_are_no_full_runs()
    ensures steps { AreNotAllowed }
    ensures ends { AreNotFull }
{}
