ghost use Rattle.language_cases.specs.Runs.{NamesFiles};

use crate::commands::{Run, run_text, run_words, said_text, words_of};
use crate::fault::CaseFault;
use crate::settings::Settings;
use hy_terms::Words;
use hybrid_run::files;
use outside::{FileSources, SourceFault, Sources};
use std::alloc::Global;
use std::rt::Files;
use std::thread::Threads;

/// The file with the table of the examples.
const TABLE: &str = "examples/README.md";

/// What words without a file show.
const NO_FILE: &str = "Words that are no command line.";

/// What the words of this line do with the files of the examples, and whether the table of the
/// examples has the line that tells it.
pub fn example_answer<R: Threads + Files + AllocGlobal>(
    rt: &R,
    settings: &Settings,
    line: &str,
) -> Result<Vec<u8>, CaseFault> {
    let words = words_of(rt.alloc(), line)?;
    let run = run_words(rt, settings, &words, &mut FileSources::new(rt))?;
    let mut answer = run_text(rt.alloc(), &run, &words)?;
    let row = row_of(rt, line, &run, &words)?;
    let table = text_in(rt, TABLE)?;
    if table.as_str().lines().any(|line| line == row.as_str()) {
        answer.extend_from_slice(b"as the table says\n")?;
    } else {
        answer.extend_from_slice(b"not in the table: ")?;
        answer.extend_from_slice(row.as_bytes())?;
        answer.push(b'\n')?;
    }
    Ok(answer)
}

/// The line of the table for words that did this: the words, what the first file shows, the lines
/// that were written and said, and the status.
fn row_of<R: Files + AllocGlobal>(
    rt: &R,
    line: &str,
    run: &Run,
    words: &Words,
) -> Result<String, CaseFault>
    requires { NamesFiles run.now words.now }
{
    let files = files(rt.alloc(), words)?;
    let said = said_text(rt.alloc(), run, words)?;
    let shown = shown(rt, &files)?;
    let mut row = format!(in rt.alloc(); "| `{line}` | {shown} |")?;
    push_cells(&mut row, run.written.as_slice())?;
    push_cells(&mut row, said.as_slice())?;
    write!(row, " | {} |", run.finish.status)?;
    Ok(row)
}

/// Appends each line of a text in marks of its own.
fn push_cells(row: &mut String, text: &[u8]) -> Result<(), CaseFault> {
    let Ok(text) = str::from_utf8(text) else {
        return Err(CaseFault::Form);
    };
    for line in text.lines() {
        row.push_str(" `")?;
        push_cell(row, line)?;
        row.push('`')?;
    }
    Ok(())
}

/// Appends a text as a cell of a table has it, with each bar behind a `\`.
fn push_cell(row: &mut String, text: &str) -> Result<(), CaseFault> {
    for char in text.chars() {
        if char == '|' {
            row.push('\\')?;
        }
        row.push(char)?;
    }
    Ok(())
}

/// What the first of these files shows.
fn shown<R: Files + AllocGlobal>(rt: &R, files: &Words) -> Result<String, CaseFault> {
    if files.len() == 0 {
        return Ok(String::from_str(rt.alloc(), NO_FILE)?);
    }
    let text = text_in(rt, files.word(0))?;
    head_of(rt.alloc(), text.as_str())
}

/// The first lines of a text, which are comments that begin with `%%`.
fn head_of(alloc: Global, text: &str) -> Result<String, CaseFault> {
    let mut head = String::new(alloc);
    for line in text.lines() {
        let Some(words) = line.strip_prefix("%% ") else {
            break;
        };
        if !head.is_empty() {
            head.push(' ')?;
        }
        head.push_str(words)?;
    }
    Ok(head)
}

/// The text of a file.
pub fn text_in<R: Files + AllocGlobal>(rt: &R, name: &str) -> Result<String, CaseFault> {
    match FileSources::new(rt).read(rt.alloc(), name) {
        Ok(text) => match String::from_utf8(text) {
            Ok(text) => Ok(text),
            Err(_) => Err(CaseFault::Form),
        },
        Err(SourceFault::Failed) => Err(CaseFault::Outside),
        Err(SourceFault::Memory) => Err(CaseFault::Memory),
    }
}
