use crate::fault::CaseFault;
use crate::trees::name_of;
use core_reader::{ReadAnswer, Refused, read_module};
use hy_core::RefusalKind;
use std::alloc::Global;

/// What the reader answers to a first part of a text.
#[derive(Clone, Copy, Debug, PartialEq, Eq)]
enum Verdict {
    Module,
    /// It has ended at its length.
    Early,
    Refused(Refused),
}

/// The answers to the first parts of a text, a line for neighbours that have one answer.
pub fn prefixes_answer(alloc: Global, text: &[u8]) -> Result<Vec<u8>, CaseFault> {
    let mut answer = Vec::new(alloc);
    let mut begun = 0;
    let mut verdict = verdict_on(alloc, b"")?;
    for place in 1..=text.len() {
        let (front, _) = text.split_at(place);
        let next = verdict_on(alloc, front)?;
        if next != verdict {
            push_verdict(&mut answer, begun, place - 1, verdict)?;
            begun = place;
            verdict = next;
        }
    }
    push_verdict(&mut answer, begun, text.len(), verdict)?;
    Ok(answer)
}

fn verdict_on(alloc: Global, text: &[u8]) -> Result<Verdict, CaseFault> {
    match read_module(alloc, text) {
        Ok(_) => Ok(Verdict::Module),
        Err(ReadAnswer::Refused(refused)) => Ok(verdict_of(refused, text.len())),
        Err(ReadAnswer::Memory) => Err(CaseFault::Memory),
    }
}

fn verdict_of(refused: Refused, len: usize) -> Verdict {
    if refused.kind == RefusalKind::Ended && refused.place == len as u64 {
        Verdict::Early
    } else {
        Verdict::Refused(refused)
    }
}

fn push_verdict(
    answer: &mut Vec<u8>,
    first: usize,
    last: usize,
    verdict: Verdict,
) -> Result<(), CaseFault> {
    let alloc = *answer.allocator();
    let line = match verdict {
        Verdict::Module => format!(in alloc; "{first} to {last}: a module\n")?,
        Verdict::Early => format!(in alloc; "{first} to {last}: Ended there\n")?,
        Verdict::Refused(refused) => format!(in alloc;
            "{first} to {last}: {} at {}\n",
            name_of(refused.kind),
            refused.place
        )?,
    };
    answer.extend_from_slice(line.as_bytes())?;
    Ok(())
}
