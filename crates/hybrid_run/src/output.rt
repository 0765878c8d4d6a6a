ghost use Rattle.std.specs.Prelude.{◌≡◌, ◌<◌, ◌≤◌, IfOk, IfErr, OnOk, IsErrOf};
ghost use Rattle.hybrid_run.specs.Arithmetic.{printed_lines, output_of, status_of};
ghost use Rattle.outside.specs.Outside.{Appends, AppendsPrefix, Rises};
ghost use Rattle.hybrid_run.specs.Faults.{IsOfOutput};
ghost use Rattle.hybrid_run.specs.Headline.{Keeps};

use crate::fault::TopFault;
use crate::value::{Ending, Value, outcome_line, printed_text};
use outside::{Failed, Sink};
use std::alloc::Global;

/// Writes what was displayed, then the outcome line, each text by one write. Answers the status.
pub fn write_output<K: Sink>(
    alloc: Global,
    printed: &[Value],
    ending: Ending,
    sink: &mut K,
) -> Result<u8, TopFault>
    ensures status { IfOk result (λ status. status ≡ status_of ending) }
    ensures small { IfOk result (λ status. status < 2) }
    ensures ok { OnOk result
        (Appends (K.written sink.old) (K.written sink.new) (output_of printed.now ending)) }
    ensures prefix { IsErrOf result TopFault.Write →
        AppendsPrefix (K.written sink.old) (K.written sink.new) (output_of printed.now ending) }
    ensures rises { IsErrOf result TopFault.Write → Rises (K.faults sink.old) (K.faults sink.new) }
    ensures kept { Keeps (K.written sink.old) (K.written sink.new) }
    ensures counts { K.faults sink.old ≤ K.faults sink.new }
    ensures kinds { IfErr result IsOfOutput }
{
    write_lines(alloc, printed, sink)?;
    let line = outcome_line(alloc, ending)?;
    match sink.write(line.as_slice()) {
        Ok(()) => Ok(status(ending)),
        Err(Failed) => Err(TopFault::Write),
    }
}

fn write_lines<K: Sink>(alloc: Global, printed: &[Value], sink: &mut K) -> Result<(), TopFault>
    ensures ok { OnOk result
        (Appends (K.written sink.old) (K.written sink.new) (printed_lines printed.now)) }
    ensures prefix { IsErrOf result TopFault.Write →
        AppendsPrefix (K.written sink.old) (K.written sink.new) (printed_lines printed.now) }
    ensures rises { IsErrOf result TopFault.Write → Rises (K.faults sink.old) (K.faults sink.new) }
    ensures kept { Keeps (K.written sink.old) (K.written sink.new) }
    ensures counts { K.faults sink.old ≤ K.faults sink.new }
    ensures kinds { IfErr result IsOfOutput }
{
    for value in printed {
        let text = printed_text(alloc, *value)?;
        match sink.write(text.as_slice()) {
            Ok(()) => {}
            Err(Failed) => return Err(TopFault::Write),
        }
    }
    Ok(())
}

fn status(ending: Ending) -> u8
    ensures status { result ≡ status_of ending }
    ensures small { result < 2 }
{
    match ending {
        Ending::Gives(_) => 0,
        Ending::Raises(_) => 1,
    }
}
