//! Runs the Core Erlang files that the command line names, or prints their canonical texts.
#![tactic(auto)]

ghost use Rattle.std.specs.Prelude.{List, ℕ, length};
ghost use Rattle.hybrid_run.specs.CommandLine.{NameFiles};
ghost use Rattle.hybrid_run.specs.Faults.{IsOfFiles};

use hy_terms::{Memory, Words};
use hybrid_run::{TopFault, fault_text, files, hybrid};
use outside::{FileSources, OpenGate, StdoutSink};
use std::alloc::Global;
use std::env;
use std::io::ErrorKind;
use std::process::ExitCode;
use std::rt::Env;

const OUT_OF_MEMORY: u8 = 8;

fn main(rt: HostRuntime) -> ExitCode {
    let Ok(words) = command_line(&rt, rt.alloc()) else {
        let _ = rt.stderr().write_all(b"hyb: out of memory\n");
        return ExitCode::from(OUT_OF_MEMORY);
    };
    let mut sources = FileSources::new(&rt);
    let mut sink = StdoutSink::new(&rt);
    let finish = hybrid(&rt, rt.alloc(), &words, &mut sources, &mut sink, &OpenGate);
    if let Some(fault) = finish.refused {
        let _ = match complaint(rt.alloc(), &fault, &words) {
            Ok(text) => rt.stderr().write_all(text.as_slice()),
            Err(Memory) => rt.stderr().write_all(b"hyb: out of memory\n"),
        };
    }
    ExitCode::from(finish.status)
}

// The words behind the program's name. Where one of them isn't text they can't be those of the
// command line, and none is given.
fn command_line<R: Env + AllocGlobal>(rt: &R, alloc: Global) -> Result<Words, Memory> {
    let mut words = Words::new(alloc);
    match env::args(rt) {
        Ok(args) => {
            for word in args.skip(1) {
                words.push(word.as_str())?;
            }
            Ok(words)
        }
        Err(error) => match error.kind() {
            ErrorKind::OutOfMemory => Err(Memory),
            _ => Ok(words),
        },
    }
}

// The line for a fault of these words.
fn complaint(alloc: Global, fault: &TopFault, words: &Words) -> Result<Vec<u8>, Memory>
    requires { (names : List (List ℕ)) → NameFiles words.now names
        → IsOfFiles fault.now (length names) }
{
    let files = files(alloc, words)?;
    fault_text(alloc, fault, &files)
}
