ghost use Rattle.std.specs.Prelude.{IsTrue, ℕ, List};
ghost use Rattle.hy_terms.specs.Labelled.{Labelled};
ghost use Rattle.hy_terms.specs.declared.term.Colour.{Colour};
ghost use Rattle.hy_core.specs.BuiltIn.{operations};
ghost use Rattle.hy_core.specs.Computation.{Input};
ghost use Rattle.hy_ir.specs.Arity.{are_arities};
ghost use Rattle.hy_ir.specs.Code.{Code};
ghost use Rattle.hy_ir.specs.LabelledLaws.{BuiltInsAreOnTerms};
ghost use Rattle.hy_ir.specs.Meaning.{Doing};
ghost use Rattle.hy_ir.specs.MeaningLaws.{
  AcceptsByArms,
  AtEachPlace,
  BeforeEachRest,
  BuiltInsAnswer,
  CallsCost,
  CellsAreBuilt,
  EventsHappen,
  FirstArmGoesOn,
  Follows,
  FunctionsStart,
  InnerTreeFirst,
  InputsAreDue,
  LastPartsEnd,
  NoInputsLeft,
  OnlyMoreHappens,
  PartEndsWhole,
  ReceiveUsesInput,
  SetelementBuilds,
  SpawnsWait,
  ValuesMove,
};

/// Constants and moves are no acts.
pub fn values_move()
    ensures { BeforeEachRest ValuesMove }
{}

/// A tuple takes one word for each part and one more, a cons three, and a string three for each
/// byte: of the private heap, or of the area with the words of the copies of its private parts.
#[tactic(auto, using(crate::proofs::RegisterLemmas::gets_length))]
pub fn cells_are_built()
    ensures { BeforeEachRest CellsAreBuilt }
{}

/// `setelement` builds the tuple with the new part, or raises `badarg`.
pub fn setelement_builds()
    ensures { BeforeEachRest SetelementBuilds }
{}

/// A built-in gives its value or raises, and is no act.
pub fn built_ins_answer()
    ensures { BeforeEachRest BuiltInsAnswer }
{}

/// The words of a send and of a print stand directly before their event. A send carries a shared
/// copy, and the register keeps what it held.
pub fn events_happen()
    ensures { BeforeEachRest EventsHappen }
{}

/// A spawn carries shared copies, and waits behind its event for the pid of the new process.
#[tactic(auto, using(crate::proofs::RegisterLemmas::gets_length))]
pub fn spawns_wait()
    ensures { BeforeEachRest SpawnsWait }
{}

/// A call costs one call. Where none is left, that is the end.
pub fn calls_cost_one_call()
    ensures { BeforeEachRest CallsCost }
{}

/// An inner tree is carried out before what follows it, and its values go to registers.
pub fn inner_trees_come_first()
    ensures { BeforeEachRest InnerTreeFirst }
{}

/// A tree gives the values of its last part, or raises there.
pub fn last_parts_end()
    ensures { AtEachPlace LastPartsEnd }
{}

/// The first arm that accepts goes on. Without one a choice raises `no_clause`.
pub fn first_arm_goes_on()
    ensures { AtEachPlace FirstArmGoesOn }
{}

/// An arm goes on exactly where some arm accepts.
pub fn arms_accept()
    ensures { (code : Code) (place : ℕ → Colour) (pid : ℕ) (follows : Follows) →
        AcceptsByArms code place pid follows }
{}

/// A receive uses one input: a message, or a lapse where it has a tree for it. Without an input it
/// waits.
pub fn receive_uses_one_input()
    ensures { AtEachPlace ReceiveUsesInput }
{}

/// A function starts with its arguments in its first registers, and gives one value.
pub fn functions_start()
    ensures { (code : Code) (place : ℕ → Colour) (pid : ℕ) → FunctionsStart code place pid }
{}

/// A part that raises, waits, or does not come to its end for another reason gives its end to the
/// whole, and what follows it is not done.
pub fn part_ends_whole()
    ensures { PartEndsWhole }
{}

/// With more inputs, or with one call more, the acts begin with the acts before.
pub fn only_more_happens()
    ensures { (code : Code) (place : ℕ → Colour) (pid : ℕ) (p : Doing) (calls : ℕ) (inputs : List (Input Labelled)) →
        OnlyMoreHappens code place pid p calls inputs }
{}

/// A run without inputs leaves none.
pub fn no_inputs_are_left()
    ensures { NoInputsLeft }
{}

/// At each input that a run uses, the run on the inputs before it has done the same so far, has used
/// them up, and waits for an input of this kind.
pub fn inputs_are_due()
    ensures { InputsAreDue }
{}

/// With the labels dropped, built-ins on labelled terms answer as on terms, and so do `setelement` and
/// the reading of `match_fail`.
pub fn built_ins_are_on_terms()
    ensures { BuiltInsAreOnTerms }
{}

/// The numbers of arguments of the built-ins are those of their names in the module `'erlang'`.
pub fn built_ins_have_arities()
    ensures { IsTrue (are_arities operations) }
{}
