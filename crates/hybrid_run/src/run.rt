ghost use Rattle.std.specs.List.{AllByRecursion};
ghost use Rattle.std.specs.Prelude.{◌≡◌, ◌≤◌, List, IfOk, IfErr};
ghost use Rattle.hy_core.specs.declared.tree.Module.{Module};
ghost use Rattle.core_lint.specs.Linted.{IsOfText};
ghost use Rattle.hybrid_run.specs.Faults.{IsSilent, fault_of_answer, status_of_answer};
ghost use Rattle.hybrid_run.specs.Headline.{IsDoneStatus, Keeps, SaysOfModules, sunk};
ghost use Rattle.hybrid_run.specs.code.Ready.{IsReady};

use crate::built::is_built;
use crate::check::{texts_of, write_texts};
use crate::command::Mode;
use crate::evaluate::evaluate_program;
use crate::fault::TopFault;
use crate::lint::linted_program;
use crate::output::write_output;
use hy_core::{Module, Program};
use outside::{Failed, Gate, Sink};
use std::alloc::Global;

/// Does what a mode does with the modules of the files. Answers the status.
pub fn run_mode<K: Sink, G: Gate>(
    alloc: Global,
    mode: Mode,
    modules: Vec<Module>,
    sink: &mut K,
    gate: &G,
) -> Result<u8, TopFault>
    requires { AllByRecursion IsOfText modules.items }
    ensures says { SaysOfModules mode modules.items
        (sunk (K.written sink.old) (K.written sink.new) (K.faults sink.old) (K.faults sink.new))
        (status_of_answer result) (fault_of_answer result) }
    ensures kept { Keeps (K.written sink.old) (K.written sink.new) }
    ensures counts { K.faults sink.old ≤ K.faults sink.new }
    ensures silent { IfErr result
        (λ fault. IsSilent fault → K.written sink.new ≡ K.written sink.old) }
    ensures status { IfOk result IsDoneStatus }
{
    match mode {
        Mode::Run => run_modules(alloc, modules, sink, gate),
        Mode::Check => print_modules(alloc, modules, sink),
    }
}

// Writes the canonical texts of the modules, where their program has no fault. They are made
// first, since the program is given up to get its own numbers.
fn print_modules<K: Sink>(alloc: Global, modules: Vec<Module>, sink: &mut K) -> Result<u8, TopFault>
    requires { AllByRecursion IsOfText modules.items }
    ensures says { SaysOfModules Mode.Check modules.items
        (sunk (K.written sink.old) (K.written sink.new) (K.faults sink.old) (K.faults sink.new))
        (status_of_answer result) (fault_of_answer result) }
    ensures kept { Keeps (K.written sink.old) (K.written sink.new) }
    ensures counts { K.faults sink.old ≤ K.faults sink.new }
    ensures silent { IfErr result
        (λ fault. IsSilent fault → K.written sink.new ≡ K.written sink.old) }
    ensures status { IfOk result IsDoneStatus }
{
    let texts = texts_of(alloc, modules.as_slice())?;
    let _ = linted_program(alloc, modules)?;
    match write_texts(texts.as_slice(), sink) {
        Ok(()) => Ok(0),
        Err(Failed) => Err(TopFault::Write),
    }
}

// Runs the program of the modules, where that has no fault and is of the six forms.
fn run_modules<K: Sink, G: Gate>(
    alloc: Global,
    modules: Vec<Module>,
    sink: &mut K,
    gate: &G,
) -> Result<u8, TopFault>
    requires { AllByRecursion IsOfText modules.items }
    ensures says { SaysOfModules Mode.Run modules.items
        (sunk (K.written sink.old) (K.written sink.new) (K.faults sink.old) (K.faults sink.new))
        (status_of_answer result) (fault_of_answer result) }
    ensures kept { Keeps (K.written sink.old) (K.written sink.new) }
    ensures counts { K.faults sink.old ≤ K.faults sink.new }
    ensures silent { IfErr result
        (λ fault. IsSilent fault → K.written sink.new ≡ K.written sink.old) }
    ensures status { IfOk result IsDoneStatus }
{
    let built = is_built(modules.as_slice());
    let linted = linted_program(alloc, modules)?;
    if built {
        run_program(alloc, &linted.program, sink, gate)
    } else {
        Err(TopFault::NotBuilt)
    }
}

// Runs a program of the six forms, which has its own numbers, in one slice of its process.
fn run_program<K: Sink, G: Gate>(
    alloc: Global,
    program: &Program,
    sink: &mut K,
    gate: &G,
) -> Result<u8, TopFault>
    requires { (zs : List Module) × IsReady zs program.now }
    ensures says { (zs : List Module) → IsReady zs program.now → SaysOfModules Mode.Run zs
        (sunk (K.written sink.old) (K.written sink.new) (K.faults sink.old) (K.faults sink.new))
        (status_of_answer result) (fault_of_answer result) }
    ensures kept { Keeps (K.written sink.old) (K.written sink.new) }
    ensures counts { K.faults sink.old ≤ K.faults sink.new }
    ensures silent { IfErr result
        (λ fault. IsSilent fault → K.written sink.new ≡ K.written sink.old) }
    ensures status { IfOk result IsDoneStatus }
{
    gate.enter(0);
    let outcome = evaluate_program(alloc, program);
    gate.leave(0);
    match outcome {
        Ok(outcome) => write_output(alloc, outcome.printed.as_slice(), outcome.ending, sink),
        Err(_) => Err(TopFault::Memory),
    }
}
