ghost use Rattle.std.specs.Prelude.{◌≡◌, IfOk};
ghost use Rattle.hybrid_run.specs.CommandLine.{NameFiles, is_option};
ghost use Rattle.hybrid_run.specs.code.Line.{GivesCommand, GivesLine, command_in, ended, mode_named, no_words, with_any, with_value, with_word};

use crate::fault::TopFault;
use hy_terms::{Memory, Words};
use std::alloc::Global;

/// What the program does with the modules of its files.
#[derive(Clone, Copy, Debug, PartialEq, Eq)]
pub enum Mode {
    /// Runs the program.
    Run,
    /// Writes the canonical text of each module.
    Check,
}

/// What a command line asks for: a mode, for 1 to 64 files.
#[derive(Drop)]
pub struct Command {
    pub mode: Mode,
    pub files: Words,
}

/// What the next word of a command line is.
#[derive(Clone, Copy, Debug, PartialEq, Eq)]
pub enum Next {
    /// An option or a file.
    Any,
    /// The value of `--mode`.
    Value,
    /// A file, whatever it begins with.
    File,
}

/// What the words so far of a command line say.
#[derive(Drop)]
pub struct Line {
    pub next: Next,
    pub mode: Option<Mode>,
    pub files: Words,
}

const MOST_FILES: u64 = 64;

/// The file words of a command line, in order; words that are no command line have none.
pub fn files(alloc: Global, words: &Words) -> Result<Words, Memory>
    ensures { IfOk result (λ files. NameFiles words.now files) }
{
    match read_command(alloc, words) {
        Ok(command) => Ok(command.files),
        Err(TopFault::Usage) => Ok(Words::new(alloc)),
        Err(_) => Err(Memory),
    }
}

/// What the words of a command line ask for.
pub fn read_command(alloc: Global, words: &Words) -> Result<Command, TopFault>
    ensures { GivesCommand result (command_in words.now) }
{
    let mut line = Line::new(alloc);
    for place in 0..words.len() {
        line.take(words.word(place))?;
    }
    line.end()
}

fn mode_of(value: &str) -> Option<Mode>
    ensures { result ≡ mode_named value.now }
{
    match value {
        "run" => Some(Mode::Run),
        "check" => Some(Mode::Check),
        _ => None,
    }
}

// Whether a word begins with `-` and isn't `-` alone.
fn begins_option(word: &str) -> bool
    ensures { result ≡ is_option word.now }
{
    matches!(word.as_bytes(), [b'-', _, ..])
}

impl Line {
    fn new(alloc: Global) -> Line
        ensures { result ≡ no_words }
    {
        Line {
            next: Next::Any,
            mode: None,
            files: Words::new(alloc),
        }
    }

    // Takes the next word.
    fn take(&mut self, word: &str) -> Result<(), TopFault>
        ensures { GivesLine result self.new (with_word self.old word.now) }
    {
        match self.next {
            Next::Any => self.take_any(word),
            Next::Value => self.set_mode(word),
            Next::File => Ok(self.files.push(word)?),
        }
    }

    // Takes a word that may be an option.
    fn take_any(&mut self, word: &str) -> Result<(), TopFault>
        ensures { GivesLine result self.new (with_any self.old word.now) }
    {
        if !begins_option(word) {
            return Ok(self.files.push(word)?);
        }
        match word {
            "--" => self.next = Next::File,
            "--mode" => self.next = Next::Value,
            _ => match word.strip_prefix("--mode=") {
                Some(value) => return self.set_mode(value),
                None => return Err(TopFault::Usage),
            },
        }
        Ok(())
    }

    // Takes the value of `--mode`, which stands at most once.
    fn set_mode(&mut self, value: &str) -> Result<(), TopFault>
        ensures { GivesLine result self.new (with_value self.old value.now) }
    {
        if self.mode.is_some() {
            return Err(TopFault::Usage);
        }
        let Some(mode) = mode_of(value) else {
            return Err(TopFault::Usage);
        };
        self.next = Next::Any;
        self.mode = Some(mode);
        Ok(())
    }

    // What the words ask for, where they are all.
    fn end(self) -> Result<Command, TopFault>
        ensures { GivesCommand result (ended self) }
    {
        let count = self.files.len();
        if self.next == Next::Value || count < 1 || MOST_FILES < count {
            return Err(TopFault::Usage);
        }
        Ok(Command {
            mode: self.mode.unwrap_or(Mode::Run),
            files: self.files,
        })
    }
}
