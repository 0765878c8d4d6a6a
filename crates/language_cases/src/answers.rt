use crate::commands::{command_answer, program_answer};
use crate::examples::{example_answer, text_in};
use crate::fault::CaseFault;
use crate::lifted::lifted_answer;
use crate::notation::{number_in, push_text};
use crate::pieces::push_indented;
use crate::prefixes::prefixes_answer;
use crate::settings::Settings;
use crate::tables::tables_answer;
use crate::tokens::tokens_answer;
use crate::trees::{prelude_answer, tree_answer};
use hy_core::Text;
use std::alloc::Global;
use std::rt::Files;
use std::thread::Threads;

/// What the cases of a file are answered by.
#[derive(Clone, Copy, Debug, PartialEq, Eq)]
pub enum Subject {
    /// The tokens of a text.
    Tokens,
    /// The tree of a text, or its refusal.
    Trees,
    /// The answers to the first parts of the text of a file.
    Prefixes,
    /// The module of the prelude that has this number.
    Prelude,
    /// The tables of the accepted program of some texts.
    Tables,
    /// The functions of the lifted program of some texts.
    Lifted,
    /// What the whole program does with the files of some texts.
    Programs,
    /// What it does with words.
    Commands,
    /// What it does with words and the files of the examples.
    Examples,
}

/// The lines of a file of cases, with the answer behind each case.
pub fn answers<R: Threads + Files + AllocGlobal>(
    rt: &R,
    subject: Subject,
    lines: &str,
) -> Result<Vec<u8>, CaseFault> {
    let mut out = Vec::new(rt.alloc());
    let mut settings = Settings::new(rt.alloc());
    for line in lines.lines() {
        out.extend_from_slice(line.as_bytes())?;
        out.push(b'\n')?;
        let (word, rest) = line.split_once(' ').unwrap_or((line, ""));
        match word {
            "" => {}
            "#" => settings = Settings::new(rt.alloc()),
            "-" => {
                let answer = answer(rt, subject, &settings, rest)?;
                push_indented(&mut out, answer.as_slice())?;
            }
            _ => settings.set(word, rest)?,
        }
    }
    Ok(out)
}

/// The answer to a case.
fn answer<R: Threads + Files + AllocGlobal>(
    rt: &R,
    subject: Subject,
    settings: &Settings,
    case: &str,
) -> Result<Vec<u8>, CaseFault> {
    match subject {
        Subject::Commands => command_answer(rt, settings, case),
        Subject::Examples => example_answer(rt, settings, case),
        Subject::Prefixes => prefixes_answer(rt.alloc(), text_in(rt, case)?.as_bytes()),
        Subject::Prelude => prelude_answer(rt.alloc(), number_in(case)?),
        _ => {
            let texts = texts_of(rt.alloc(), settings, case)?;
            answer_of_texts(rt, subject, settings, texts.as_slice())
        }
    }
}

/// The answer to a case of these texts.
fn answer_of_texts<R: Threads + AllocGlobal>(
    rt: &R,
    subject: Subject,
    settings: &Settings,
    texts: &[Text],
) -> Result<Vec<u8>, CaseFault> {
    match (subject, texts) {
        (Subject::Tokens, [text]) => tokens_answer(rt.alloc(), text.as_slice()),
        (Subject::Trees, [text]) => tree_answer(rt.alloc(), text.as_slice()),
        (Subject::Tables, _) => tables_answer(rt.alloc(), texts),
        (Subject::Lifted, _) => lifted_answer(rt.alloc(), texts),
        (Subject::Programs, _) => program_answer(rt, settings, texts),
        _ => Err(CaseFault::Form),
    }
}

/// The texts of a case, with `~;~` between their notations.
fn texts_of(alloc: Global, settings: &Settings, case: &str) -> Result<Vec<Text>, CaseFault> {
    let mut texts = Vec::new(alloc);
    let whole = format!(in alloc; "{}{case}{}", settings.front, settings.back)?;
    for notation in whole.as_str().split("~;~") {
        let mut text = Vec::new(alloc);
        push_text(&mut text, notation)?;
        texts.push(Text::from_vec(text))?;
    }
    Ok(texts)
}
