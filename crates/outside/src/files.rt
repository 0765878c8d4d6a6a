ghost use Rattle.std.specs.Prelude.{◌≡◌, ◌≤◌, None, IfOk, length};
ghost use Rattle.outside.specs.Outside.{read_limit};

use crate::sources::{READ_LIMIT, SourceFault, Sources};
use std::alloc::Global;
use std::fs;
use std::io::{Error, ErrorKind, Read};
use std::rt::Files;

const PIECE: usize = 1 << 16;

/// Files by their paths. It tells nothing of their content, and counts all faults together.
#[derive(Drop)]
pub struct FileSources<'a, R: Files> {
    rt: &'a R,
    faults: u64,
}

impl<'a, R: Files> FileSources<'a, R> {
    /// No fault has come yet.
    pub fn new(rt: &'a R) -> FileSources<'a, R>
        ensures { result.faults ≡ 0 }
    {
        FileSources { rt, faults: 0 }
    }
}

impl<'a, R: Files> Sources for FileSources<'a, R> {
    ghost told = { λ s name. None };

    ghost faults = { λ s name. s.faults };

    fn read(&mut self, alloc: Global, name: &str) -> Result<Vec<u8>, SourceFault> {
        let text = read_file(self.rt, alloc, name);
        if let Err(SourceFault::Failed) = &text {
            self.faults = self.faults.saturating_add(1);
        }
        text
    }
}

fn fault_of(error: &Error) -> SourceFault {
    match error.kind() {
        ErrorKind::OutOfMemory => SourceFault::Memory,
        _ => SourceFault::Failed,
    }
}

fn read_file<R: Files>(rt: &R, alloc: Global, path: &str) -> Result<Vec<u8>, SourceFault>
    ensures { IfOk result (λ text. length text.items ≤ read_limit) }
{
    match fs::open(rt, path) {
        Ok(mut file) => read_bytes(alloc, &mut file),
        Err(error) => Err(fault_of(&error)),
    }
}

// Reads to the end, or to the limit.
fn read_bytes<F: Read>(alloc: Global, file: &mut F) -> Result<Vec<u8>, SourceFault>
    ensures { IfOk result (λ text. length text.items ≤ read_limit) }
{
    let mut text = Vec::new(alloc);
    let mut piece = vec![in alloc; 0u8; PIECE].map_err(|_| SourceFault::Memory)?;
    for _ in 0..u64::MAX {
        let room = PIECE.min(READ_LIMIT - text.len());
        match file.read(&mut piece[..room]) {
            Ok(0) => return Ok(text),
            Ok(count) => text
                .extend_from_slice(&piece[..count])
                .map_err(|_| SourceFault::Memory)?,
            Err(error) => {
                if error.kind() != ErrorKind::Interrupted {
                    return Err(fault_of(&error));
                }
            }
        }
    }
    Err(SourceFault::Failed)
}
