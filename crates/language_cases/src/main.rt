//! Answers the cases of the language that lie in `data/`, each by the public call that it is for.
//! What is written is kept as the file `stdout`, and the gate wants it again.
//!
//! A file of cases has lines. `# TITLE` begins a part. `- CASE` is a case: it is written as it
//! stands, and its answer behind it, two places in. Each other line that isn't empty is a setting
//! for the cases behind it, up to the next part:
//!
//! - `front TEXT` and `back TEXT` stand before and behind the text of each case, with a space;
//! - `words WORDS` are the words before the names of a program's files, which are 0, 1 and so on;
//! - `file NAME TEXT` is a file that commands find, and `files N TEXT` are N, named by their numbers;
//! - `unread N ..` and `unwritten N ..` are the reads and the writes that fail, counted from 1;
//! - `room N` is how many bytes the sink takes.
//!
//! In a text `~N~` is the byte N, and `~N*PIECE~` is the piece N times, where `#` is the number of
//! each, from 0; `~;~` stands between the texts of a program. Long answers are written by their two
//! ends.
#![tactic(auto)]

mod answers;
mod bodies;
mod commands;
mod examples;
mod fault;
mod lifted;
mod notation;
mod numbers;
mod pieces;
mod prefixes;
mod settings;
mod symbols;
mod tables;
mod tokens;
mod trees;

use crate::answers::{Subject, answers};
use crate::examples::text_in;
use crate::fault::CaseFault;
use std::process::ExitCode;
use std::rt::Files;
use std::thread::Threads;

/// The files of cases, in the order in which they are answered.
const FILES: [(&str, Subject); 13] = [
    ("tokens.cases", Subject::Tokens),
    ("trees.cases", Subject::Trees),
    ("names.cases", Subject::Trees),
    ("refusals.cases", Subject::Trees),
    ("levels.cases", Subject::Trees),
    ("prefixes.cases", Subject::Prefixes),
    ("prelude.cases", Subject::Prelude),
    ("tables.cases", Subject::Tables),
    ("lifted.cases", Subject::Lifted),
    ("faults.cases", Subject::Programs),
    ("runs.cases", Subject::Programs),
    ("commands.cases", Subject::Commands),
    ("examples.cases", Subject::Examples),
];

fn main(rt: HostRuntime) -> ExitCode {
    for (name, subject) in FILES {
        let done = match answers_in(&rt, name, subject) {
            Ok(text) => rt.stdout().write_all(text.as_slice()).is_ok(),
            Err(fault) => {
                let _ = rt.stderr().write_all(name_of(fault).as_bytes());
                false
            }
        };
        if !done {
            return ExitCode::from(1);
        }
    }
    ExitCode::from(0)
}

/// The cases of this file, with their answers.
fn answers_in<R: Threads + Files + AllocGlobal>(
    rt: &R,
    name: &str,
    subject: Subject,
) -> Result<Vec<u8>, CaseFault> {
    let lines = text_in(rt, name)?;
    answers(rt, subject, lines.as_str())
}

fn name_of(fault: CaseFault) -> &'static str {
    match fault {
        CaseFault::Form => "a line of an unknown form\n",
        CaseFault::Outside => "a file or the output failed\n",
        CaseFault::Memory => "out of memory\n",
    }
}
