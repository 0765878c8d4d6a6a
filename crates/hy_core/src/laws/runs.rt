ghost use Rattle.hy_core.specs.Evaluated.{LetrecCounts, InputsAreUsed};
ghost use Rattle.hy_core.specs.ResolvedExample.{IsResolved};
ghost use Rattle.hy_core.specs.Worked.{
  NumbersHaveARange,
  DivisionCuts,
  ReceiveSelects,
  ReceiveLapsesOrWaits,
  MessageBeforeClause,
  GuardsHoldByTrue,
  PartsGoFromLeft,
  TermsPrint,
  TermsAreOrdered,
  RaisesEnd,
  PreludeCounts,
  StartCostsNothing,
  ParentAndChild,
  AreNoRuns,
};

/// In a small program each call says what it calls, and each event and each place that builds has its
/// number: nodes in the order of the text from 0 in each function, sites over the whole program.
pub fn calls_events_and_sites_are_resolved()
    ensures { IsResolved }
{}

/// Numbers reach from -2^59 to 2^59 - 1, and an answer outside raises the error `system_limit`.
pub fn numbers_have_a_range()
    ensures { NumbersHaveARange }
{}

/// `div` cuts towards zero and `rem` has the sign of the first number. What was printed stays
/// although what follows raises.
pub fn division_cuts_towards_zero()
    ensures { DivisionCuts }
{}

/// A `receive` takes the first message that it accepts, and leaves the others.
pub fn receive_takes_first_accepted_message()
    ensures { ReceiveSelects }
{}

/// A `receive` with timeout 0 lapses where it accepts no message, and one without a timeout waits.
pub fn receive_lapses_or_waits()
    ensures { ReceiveLapsesOrWaits }
{}

/// How terms of each kind print.
pub fn terms_print()
    ensures { TermsPrint }
{}

/// Number < atom < pid < tuple < nil < list, and tuples go by size first.
pub fn terms_of_each_kind_are_ordered()
    ensures { TermsAreOrdered }
{}

/// What a process that raises is reported with.
pub fn raises_end_a_process()
    ensures { RaisesEnd }
{}

/// A call into the functions that each program has costs one call as any other.
pub fn prelude_counts_like_others()
    ensures { PreludeCounts }
{}

/// The start call of a process costs no call.
pub fn start_costs_no_call()
    ensures { StartCostsNothing }
{}

/// A process that spawns another and sends to it, and the other, which takes the message and prints it.
pub fn parent_and_child_run()
    ensures { ParentAndChild }
{}

/// No run takes a message before it was sent, takes a later message although an earlier one is
/// accepted, or lapses although a message is accepted.
pub fn some_steps_are_no_run()
    ensures { AreNoRuns }
{}

/// The first message that some clause accepts goes before the first clause.
pub fn messages_go_before_clauses()
    ensures { MessageBeforeClause }
{}

/// A guard that raises, or that gives another value than `'true'`, does not hold.
pub fn guards_hold_by_true_alone()
    ensures { GuardsHoldByTrue }
{}

/// Parts are evaluated from left to right.
pub fn parts_go_from_left_to_right()
    ensures { PartsGoFromLeft }
{}

/// A function of a `letrec` sees what was bound around the `letrec`, and each call of it costs one.
pub fn letrec_functions_count()
    ensures { LetrecCounts }
{}

/// How a spawn and a receive use inputs.
pub fn inputs_are_used()
    ensures { InputsAreUsed }
{}
