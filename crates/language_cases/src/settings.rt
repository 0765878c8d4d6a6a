use crate::fault::CaseFault;
use crate::notation::{number_in, push_numbered, push_text};
use std::alloc::Global;

/// The bytes that a sink takes where no setting says.
const ROOM: u32 = 1 << 16;

/// A file that commands find.
#[derive(Drop)]
pub struct File {
    pub name: String,
    pub text: Vec<u8>,
}

/// What the lines before a case say of it.
#[derive(Drop)]
pub struct Settings {
    alloc: Global,
    /// Stands before the notation of each text.
    pub front: String,
    /// Stands behind it.
    pub back: String,
    /// The words that stand before the names of a program's files.
    pub words: String,
    /// The files that commands find.
    pub files: Vec<File>,
    /// The numbers of the reads that fail.
    pub unread: Vec<u64>,
    /// The numbers of the writes that fail.
    pub unwritten: Vec<u64>,
    /// The bytes that the sink takes.
    pub room: u32,
}

impl Settings {
    /// Those of a case with no line before it.
    pub fn new(alloc: Global) -> Settings {
        Settings {
            alloc,
            front: String::new(alloc),
            back: String::new(alloc),
            words: String::new(alloc),
            files: Vec::new(alloc),
            unread: Vec::new(alloc),
            unwritten: Vec::new(alloc),
            room: ROOM,
        }
    }

    /// Takes the setting of this name.
    pub fn set(&mut self, name: &str, value: &str) -> Result<(), CaseFault> {
        match name {
            "front" => self.front = format!(in self.alloc; "{value} ")?,
            "back" => self.back = format!(in self.alloc; " {value}")?,
            "words" => self.words = String::from_str(self.alloc, value)?,
            "file" => self.add_file(value)?,
            "files" => self.add_files(value)?,
            "unread" => self.unread = numbers_in(self.alloc, value)?,
            "unwritten" => self.unwritten = numbers_in(self.alloc, value)?,
            "room" => self.room = number_in(value)?,
            _ => return Err(CaseFault::Form),
        }
        Ok(())
    }

    /// Adds the file of this name and the notation of its text.
    fn add_file(&mut self, value: &str) -> Result<(), CaseFault> {
        let Some((name, notation)) = value.split_once(' ') else {
            return Err(CaseFault::Form);
        };
        let mut text = Vec::new(self.alloc);
        push_text(&mut text, notation)?;
        let name = String::from_str(self.alloc, name)?;
        self.files.push(File { name, text })?;
        Ok(())
    }

    /// Adds so many files, each named by its number, which stands in the text for `#`.
    fn add_files(&mut self, value: &str) -> Result<(), CaseFault> {
        let Some((count, piece)) = value.split_once(' ') else {
            return Err(CaseFault::Form);
        };
        for number in 0..number_in(count)? {
            let mut text = Vec::new(self.alloc);
            push_numbered(&mut text, piece, number)?;
            let name = format!(in self.alloc; "{number}")?;
            self.files.push(File { name, text })?;
        }
        Ok(())
    }
}

/// The numbers that are written so, with spaces between them.
fn numbers_in(alloc: Global, value: &str) -> Result<Vec<u64>, CaseFault> {
    let mut numbers = Vec::new(alloc);
    for digits in value.split_whitespace() {
        numbers.push(number_in(digits)? as u64)?;
    }
    Ok(numbers)
}
