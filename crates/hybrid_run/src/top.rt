ghost use Rattle.std.specs.Prelude.{◌≡◌, ◌≤◌, ℕ, List, [], ◌∷◌, length, Contains, IfSome, MatchOption, IfOk, IfErr, IsErrOf};
ghost use Rattle.hybrid_run.specs.Answers.{Answers, IsSilentStatus, IsUsageAnswer, Says};
ghost use Rattle.hybrid_run.specs.CommandLine.{IsCommand, IsUsage, NameFiles, most_files};
ghost use Rattle.hybrid_run.specs.Faults.{IsOfFiles, IsSilent, fault_of_answer, status_of_answer, status_of_fault};
ghost use Rattle.hybrid_run.specs.Headline.{IsDoneStatus, Keeps, sunk};
ghost use Rattle.hybrid_run.specs.Loading.{sourced};
ghost use Rattle.hybrid_run.specs.Told.{AnswersTold};
ghost use Rattle.hybrid_run.specs.declared.command.Mode.{Mode};
ghost use Rattle.outside.specs.Outside.{Rises};

use crate::command::{Command, read_command};
use crate::fault::{TopFault, status_of};
use crate::load::load_all;
use crate::run::run_mode;
use hy_terms::Words;
use outside::{Gate, Sink, Sources};
use std::alloc::Global;
use std::thread::Threads;

/// How the program ends: its status, and why where it doesn't do what its words ask for.
#[derive(Clone, Copy, Debug, PartialEq, Eq)]
pub struct Finish {
    pub status: u8,
    pub refused: Option<TopFault>,
}

/// Does all that the program does with the words of its command line: it reads the texts of the
/// files, in order, looks for a fault in the program of their modules, and then runs this program,
/// or writes the canonical text of each module. A program in which a fault holds is refused in both
/// modes.
///
/// The status is 0 where the process ended or all texts are written, 1 where the process raised, 2
/// where the words are usage, 3 where a text is no module, a fault holds in the program or the mode
/// isn't built for it, 6 and 7 where a source or the sink failed, and 8 for want of memory.
pub fn hybrid<R: Threads, S: Sources, K: Sink, G: Gate>(
    rt: &R,
    alloc: Global,
    words: &Words,
    sources: &mut S,
    sink: &mut K,
    gate: &G,
) -> Finish
    // Words that are no command line are usage, or memory runs out, and nothing else is usage.
    ensures usage { IsUsage words.now → Contains (2 ∷ 8 ∷ []) result.status }
    ensures usage_only { result.status ≡ 2 → IsUsage words.now }

    // What the end says of a command, whether or not the texts of its files are told.
    ensures answers { (mode : Mode) (files : List (List ℕ)) → IsCommand words.now mode files →
        Answers mode files
        (sourced (S.told sources.old) (S.faults sources.old) (S.faults sources.new))
        (sunk (K.written sink.old) (K.written sink.new) (K.faults sink.old) (K.faults sink.new))
        result }

    // What follows from this where they are told, since a text has one tree or one refusal.
    ensures follows { (mode : Mode) (files : List (List ℕ)) → IsCommand words.now mode files →
        AnswersTold mode files
        (sourced (S.told sources.old) (S.faults sources.old) (S.faults sources.new))
        (sunk (K.written sink.old) (K.written sink.new) (K.faults sink.old) (K.faults sink.new))
        result }

    // The status and the fault belong together, and the fault names one of the files.
    ensures statuses { Contains (0 ∷ 1 ∷ 2 ∷ 3 ∷ 6 ∷ 7 ∷ 8 ∷ []) result.status }
    ensures refused { MatchOption result.refused (IsDoneStatus result.status)
        (λ fault. result.status ≡ status_of_fault fault) }
    ensures names_file { (files : List (List ℕ)) → NameFiles words.now files →
        IfSome result.refused (λ fault. IsOfFiles fault (length files)) }

    // Whatever the end, texts that are told are as they were, what the sink held is at the front of
    // what it holds, and no count falls. A write that failed shows, and nothing is written before a
    // refusal.
    ensures same { S.told sources.new ≡ S.told sources.old }
    ensures kept { Keeps (K.written sink.old) (K.written sink.new) }
    ensures read_counts { (name : List ℕ) → S.faults sources.old name ≤ S.faults sources.new name }
    ensures write_count { K.faults sink.old ≤ K.faults sink.new }
    ensures write { result.status ≡ 7 → Rises (K.faults sink.old) (K.faults sink.new) }
    ensures silent { IsSilentStatus result.status → K.written sink.new ≡ K.written sink.old }
{
    let _ = rt;
    finish_of(answer(alloc, words, sources, sink, gate))
}

// The end of the program by what it answers.
fn finish_of(answer: Result<u8, TopFault>) -> Finish
    ensures status { result.status ≡ status_of_answer answer }
    ensures refused { result.refused ≡ fault_of_answer answer }
{
    match answer {
        Ok(status) => Finish {
            status,
            refused: None,
        },
        Err(fault) => Finish {
            status: status_of(&fault),
            refused: Some(fault),
        },
    }
}

// Does what the words ask for. Answers the status.
fn answer<S: Sources, K: Sink, G: Gate>(
    alloc: Global,
    words: &Words,
    sources: &mut S,
    sink: &mut K,
    gate: &G,
) -> Result<u8, TopFault>
    ensures says { (mode : Mode) (files : List (List ℕ)) → IsCommand words.now mode files →
        Says mode files (sourced (S.told sources.old) (S.faults sources.old) (S.faults sources.new))
        (sunk (K.written sink.old) (K.written sink.new) (K.faults sink.old) (K.faults sink.new))
        (status_of_answer result) (fault_of_answer result) }
    ensures usage { IsUsage words.now → IsUsageAnswer result }
    ensures usage_only { IsErrOf result TopFault.Usage → IsUsage words.now }
    ensures same { (name : List ℕ) → S.told sources.new name ≡ S.told sources.old name }
    ensures kept { Keeps (K.written sink.old) (K.written sink.new) }
    ensures read_counts { (name : List ℕ) → S.faults sources.old name ≤ S.faults sources.new name }
    ensures write_count { K.faults sink.old ≤ K.faults sink.new }
    ensures write { IsErrOf result TopFault.Write → Rises (K.faults sink.old) (K.faults sink.new) }
    ensures silent { IfErr result
        (λ fault. IsSilent fault → K.written sink.new ≡ K.written sink.old) }
    ensures status { IfOk result IsDoneStatus }
{
    let command = read_command(alloc, words)?;
    run_command(alloc, &command, sources, sink, gate)
}

// Does what the command asks for. Answers the status.
fn run_command<S: Sources, K: Sink, G: Gate>(
    alloc: Global,
    command: &Command,
    sources: &mut S,
    sink: &mut K,
    gate: &G,
) -> Result<u8, TopFault>
    requires few { length command.now.files ≤ most_files }
    ensures says { Says command.now.mode command.now.files
        (sourced (S.told sources.old) (S.faults sources.old) (S.faults sources.new))
        (sunk (K.written sink.old) (K.written sink.new) (K.faults sink.old) (K.faults sink.new))
        (status_of_answer result) (fault_of_answer result) }
    ensures same { (name : List ℕ) → S.told sources.new name ≡ S.told sources.old name }
    ensures kept { Keeps (K.written sink.old) (K.written sink.new) }
    ensures read_counts { (name : List ℕ) → S.faults sources.old name ≤ S.faults sources.new name }
    ensures write_count { K.faults sink.old ≤ K.faults sink.new }
    ensures write { IsErrOf result TopFault.Write → Rises (K.faults sink.old) (K.faults sink.new) }
    ensures silent { IfErr result
        (λ fault. IsSilent fault → K.written sink.new ≡ K.written sink.old) }
    ensures status { IfOk result IsDoneStatus }
{
    let modules = load_all(alloc, &command.files, sources)?;
    run_mode(alloc, command.mode, modules, sink, gate)
}
