ghost use Rattle.std.specs.Prelude.{◌≡◌, ◌++◌, length, IfOk, OnOk};
ghost use Rattle.hybrid_run.specs.Faults.{text_of_fault, read_fault_text, refusal_text, lint_text, kind_name, form_name, status_of_fault, IsOfFiles};

use core_reader::Refused;
use hy_core::{Form, LintFault, RefusalKind};
use hy_terms::{Memory, Words};
use std::alloc::{AllocFailed, Global};

/// Why the program doesn't do what its words ask for. A file is a place among the file words.
#[derive(Clone, Copy, Debug, PartialEq, Eq)]
pub enum TopFault {
    /// The words aren't those of the command line.
    Usage,
    /// A file's text couldn't be read.
    Read { file: u32 },
    /// A file's text is no module.
    Refused { file: u32, refused: Refused },
    /// This fault holds in the program of the files, and none before it. Its module is the file at
    /// that place.
    Lint(LintFault),
    /// The program of the files has no fault, and is outside what is run so far.
    NotBuilt,
    /// Standard output failed.
    Write,
    Memory,
}

/// The status of the program for a fault.
pub fn status_of(fault: &TopFault) -> u8
    ensures { result ≡ status_of_fault fault.now }
{
    match fault {
        TopFault::Usage => 2,
        TopFault::Refused {
            file: _,
            refused: _,
        } => 3,
        TopFault::Lint(_) => 3,
        TopFault::NotBuilt => 3,
        TopFault::Read { file: _ } => 6,
        TopFault::Write => 7,
        TopFault::Memory => 8,
    }
}

impl From<Memory> for TopFault {
    ghost use Rattle.std.specs.Prelude.{◌≡◌};
    ghost use Rattle.hybrid_run.specs.declared.fault.TopFault.TheVariants as faults;

    ghost from_gives = { λ _ e. e ≡ faults.Memory };

    fn from(_error: Memory) -> TopFault {
        TopFault::Memory
    }
}

impl<T: Drop> From<AllocFailed<T>> for TopFault {
    ghost use Rattle.std.specs.Prelude.{◌≡◌};
    ghost use Rattle.hybrid_run.specs.declared.fault.TopFault.TheVariants as faults;

    ghost from_gives = { λ _ e. e ≡ faults.Memory };

    fn from(_error: AllocFailed<T>) -> TopFault {
        TopFault::Memory
    }
}

/// The line that the program prints for a fault, given its file words.
pub fn fault_text(alloc: Global, fault: &TopFault, files: &Words) -> Result<Vec<u8>, Memory>
    requires { IsOfFiles fault.now (length files.now) }
    ensures { IfOk result (λ text. text.items ≡ text_of_fault fault.now files.now) }
{
    let mut text = Vec::new(alloc);
    match fault {
        TopFault::Usage => text.extend_from_slice(b"hyb: usage\n")?,
        TopFault::Read { file } => push_read_fault(&mut text, files.word(*file as u64))?,
        TopFault::Refused { file, refused } => {
            push_refusal(&mut text, files.word(*file as u64), *refused)?
        }
        TopFault::Lint(found) => push_lint(&mut text, files.word(found.module as u64), *found)?,
        TopFault::NotBuilt => text.extend_from_slice(b"hyb: not built\n")?,
        TopFault::Write => text.extend_from_slice(b"hyb: write failed\n")?,
        TopFault::Memory => text.extend_from_slice(b"hyb: out of memory\n")?,
    }
    Ok(text)
}

fn push_read_fault(text: &mut Vec<u8>, name: &str) -> Result<(), Memory>
    ensures { OnOk result (text.new.items ≡ text.old.items ++ read_fault_text name.now) }
{
    text.extend_from_slice(b"hyb: cannot read ")?;
    text.extend_from_slice(name.as_bytes())?;
    text.push(b'\n')?;
    Ok(())
}

fn push_refusal(text: &mut Vec<u8>, name: &str, refused: Refused) -> Result<(), Memory>
    ensures { OnOk result
        (text.new.items ≡ text.old.items ++ refusal_text name.now refused.kind refused.place) }
{
    let line = format!(in *text.allocator();
        "hyb: {}: {} at {}\n",
        name,
        name_of(refused.kind),
        refused.place
    )?;
    text.extend_from_slice(line.as_bytes())?;
    Ok(())
}

fn push_lint(text: &mut Vec<u8>, name: &str, fault: LintFault) -> Result<(), Memory>
    ensures { OnOk result (text.new.items ≡ text.old.items ++ lint_text name.now fault) }
{
    let line = format!(in *text.allocator();
        "hyb: {}: fault {} function {} node {} {}\n",
        name,
        fault.kind,
        fault.function,
        fault.node,
        name_of_form(fault.form)
    )?;
    text.extend_from_slice(line.as_bytes())?;
    Ok(())
}

fn name_of(kind: RefusalKind) -> &'static str
    ensures { result.now ≡ kind_name kind }
{
    match kind {
        RefusalKind::BadToken => "BadToken",
        RefusalKind::Unexpected => "Unexpected",
        RefusalKind::Ended => "Ended",
        RefusalKind::NumberRange => "NumberRange",
        RefusalKind::TooDeep => "TooDeep",
        RefusalKind::TooLong => "TooLong",
    }
}

fn name_of_form(form: Form) -> &'static str
    ensures { result.now ≡ form_name form }
{
    match form {
        Form::Absent => "none",
        Form::Fun => "fun",
        Form::Name => "name",
        Form::Apply => "apply",
        Form::Call => "call",
        Form::Try => "try",
        Form::Catch => "catch",
        Form::Primop => "primop",
        Form::Timeout => "timeout",
        Form::Spawn => "spawn",
        Form::Functions => "functions",
        Form::Arity => "arity",
        Form::Sites => "sites",
        Form::Atoms => "atoms",
    }
}
