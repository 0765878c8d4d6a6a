ghost use Rattle.std.specs.Prelude.{ℕ, List, length, IfOk};
ghost use Rattle.hybrid_run.specs.CommandLine.{NameFiles};
ghost use Rattle.hybrid_run.specs.Faults.{IsOfFiles};
ghost use Rattle.hybrid_run.specs.Loading.{sourced};
ghost use Rattle.language_cases.specs.Runs.{DoesAsHybrid, IsFaultLine, IsRunText, IsSaid, NamesFiles};

use crate::fault::CaseFault;
use crate::notation::push_text;
use crate::pieces::push_shortened;
use crate::settings::Settings;
use hy_core::Text;
use hy_terms::Words;
use hybrid_run::{Finish, TopFault, fault_text, files, hybrid};
use outside::{MemorySink, MemorySources, OpenGate, Sources};
use std::alloc::Global;
use std::thread::Threads;

/// What a command wrote, and how it ended.
#[derive(Drop)]
pub struct Run {
    pub written: Vec<u8>,
    pub finish: Finish,
}

/// Runs the words of a command line, with a sink in memory.
pub fn run_words<R: Threads + AllocGlobal, S: Sources>(
    rt: &R,
    settings: &Settings,
    words: &Words,
    sources: &mut S,
) -> Result<Run, CaseFault>
    // What is written, and the end, are those of `hybrid`.
    ensures answers { IfOk result (DoesAsHybrid words.now
        (sourced (S.told sources.old) (S.faults sources.old) (S.faults sources.new))) }
    ensures names_files { IfOk result (λ run. NamesFiles run words.now) }
{
    let fails = Vec::from_slice(rt.alloc(), settings.unwritten.as_slice())?;
    let mut sink = MemorySink::new(rt.alloc(), settings.room as u64, fails)?;
    let finish = hybrid(rt, rt.alloc(), words, sources, &mut sink, &OpenGate);
    let written = Vec::from_slice(rt.alloc(), sink.bytes())?;
    Ok(Run { written, finish })
}

/// What the words of this line do with the files of the settings.
pub fn command_answer<R: Threads + AllocGlobal>(
    rt: &R,
    settings: &Settings,
    line: &str,
) -> Result<Vec<u8>, CaseFault> {
    let mut sources = sources_of(rt.alloc(), settings)?;
    for file in settings.files.as_slice() {
        sources.add(file.name.as_str(), file.text.as_slice())?;
    }
    let words = words_of(rt.alloc(), line)?;
    let run = run_words(rt, settings, &words, &mut sources)?;
    run_text(rt.alloc(), &run, &words)
}

/// What the words of the settings do with files of these texts, each named by its number.
pub fn program_answer<R: Threads + AllocGlobal>(
    rt: &R,
    settings: &Settings,
    texts: &[Text],
) -> Result<Vec<u8>, CaseFault> {
    let mut sources = sources_of(rt.alloc(), settings)?;
    let mut words = words_of(rt.alloc(), settings.words.as_str())?;
    for (number, text) in texts.iter().enumerate() {
        let name = format!(in rt.alloc(); "{number}")?;
        sources.add(name.as_str(), text.as_slice())?;
        words.push(name.as_str())?;
    }
    let run = run_words(rt, settings, &words, &mut sources)?;
    run_text(rt.alloc(), &run, &words)
}

/// What a command wrote, its status, and the line for its fault.
pub fn run_text(alloc: Global, run: &Run, words: &Words) -> Result<Vec<u8>, CaseFault>
    requires { NamesFiles run.now words.now }
    ensures { IfOk result (λ text. IsRunText run.now words.now text.items) }
{
    let status = format!(in alloc; "status {}\n", run.finish.status)?;
    let said = said_text(alloc, run, words)?;
    let mut text = Vec::new(alloc);
    push_shortened(&mut text, run.written.as_slice())?;
    text.extend_from_slice(status.as_bytes())?;
    text.extend_from_slice(said.as_slice())?;
    Ok(text)
}

/// The line for the fault of a command, or nothing.
pub fn said_text(alloc: Global, run: &Run, words: &Words) -> Result<Vec<u8>, CaseFault>
    requires { NamesFiles run.now words.now }
    ensures { IfOk result (λ said. IsSaid run.now.finish.refused words.now said.items) }
{
    match run.finish.refused {
        Some(fault) => fault_line(alloc, &fault, words),
        None => Ok(Vec::new(alloc)),
    }
}

/// The line for a fault of these words.
fn fault_line(alloc: Global, fault: &TopFault, words: &Words) -> Result<Vec<u8>, CaseFault>
    requires { (names : List (List ℕ)) → NameFiles words.now names →
        IsOfFiles fault.now (length names) }
    ensures { IfOk result (λ line. IsFaultLine fault.now words.now line.items) }
{
    let files = files(alloc, words)?;
    let line = fault_text(alloc, fault, &files)?;
    Ok(line)
}

/// Sources with no file yet, which fail where the settings say.
fn sources_of(alloc: Global, settings: &Settings) -> Result<MemorySources, CaseFault> {
    let fails = Vec::from_slice(alloc, settings.unread.as_slice())?;
    Ok(MemorySources::new(alloc, fails))
}

/// The words of this line, which is notation, with spaces between them.
pub fn words_of(alloc: Global, line: &str) -> Result<Words, CaseFault> {
    let mut text = Vec::new(alloc);
    push_text(&mut text, line)?;
    let Ok(text) = String::from_utf8(text) else {
        return Err(CaseFault::Form);
    };
    let mut words = Words::new(alloc);
    for word in text.as_str().split_whitespace() {
        words.push(word)?;
    }
    Ok(words)
}
