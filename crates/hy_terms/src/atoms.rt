ghost use Rattle.std.specs.Prelude.{◌≡◌, ◌+◌, ◌<◌, ◌^◌, ◌↔◌, [], ◌∷◌, ◌++◌, length, map, IfOk, OnOk, OnErr, IfSome, None, Some, Err, slice_get};
ghost use Rattle.hy_terms.specs.Naming.{named, place_in, text_of, IsTable};
ghost use Rattle.hy_terms.specs.declared.atoms.AtomFault.TheVariants.{TooManyAtoms};

use crate::memory::Memory;
use crate::text_table::TextTable;
use std::alloc::Global;
use std::marker::Model;
use thiserror::Error;

/// Why a text has no number.
#[derive(Clone, Copy, Debug, PartialEq, Eq, Error)]
pub enum AtomFault {
    /// The text is new, and the table holds 2^20 texts.
    #[error("TooManyAtoms")]
    TooManyAtoms,
    /// Want of memory.
    #[error("Memory")]
    Memory,
}

impl From<Memory> for AtomFault {
    ghost use Rattle.std.specs.Prelude.{◌≡◌};
    ghost use Rattle.hy_terms.specs.declared.atoms.AtomFault.TheVariants.{Memory};

    ghost from_gives = { λ _ e. e ≡ Memory };

    fn from(_error: Memory) -> AtomFault {
        AtomFault::Memory
    }
}

const MOST_ATOMS: usize = 1 << 20;

/// A table of at most 2^20 texts, each once, numbered in the order in which they came.
///
/// A contract sees it as the list of its texts.
#[derive(Drop)]
pub struct Atoms {
    texts: TextTable,
}

impl Model for Atoms {
    ghost use Rattle.std.specs.Prelude.{List, ℕ, length, ◌≤◌, ◌^◌};

    ghost Value = { List (List ℕ) };

    ghost view = { λ a. a.texts };

    ghost invariant = { λ a. length a.texts ≤ 2 ^ 20 };
}

impl Atoms {
    /// An empty table.
    pub fn new(alloc: Global) -> Atoms
        ensures { result ≡ [] }
    {
        Atoms {
            texts: TextTable::new(alloc),
        }
    }

    /// The number of a text, where it has one.
    pub fn place(&self, text: &[u8]) -> Option<u32>
        ensures place { result ≡ place_in self.now text.now }
        ensures within { IfSome result (λ atom. atom < length self.now) }
    {
        if let Some(place) = self.texts.place(text) {
            return Some(place as u32);
        }
        None
    }

    /// The number of a text. A new text goes last. Only a new text can fail, and leaves the table
    /// as it was.
    pub fn intern(&mut self, text: &[u8]) -> Result<u32, AtomFault>
        ensures ok { IfOk result (λ atom. named self.old text.now ≡ (atom, self.new)) }
        ensures full { (result ≡ Err TooManyAtoms) ↔ ((place_in self.old text.now ≡ None)
            × (length self.old ≡ 2 ^ 20)) }
        ensures absent { OnErr result (place_in self.old text.now ≡ None) }
        ensures err { OnErr result (self.new ≡ self.old) }
    {
        if let Some(atom) = self.place(text) {
            return Ok(atom);
        }
        if self.texts.len() == MOST_ATOMS {
            return Err(AtomFault::TooManyAtoms);
        }
        Ok(self.texts.name(text)? as u32)
    }

    /// The text of a number.
    pub fn text(&self, atom: u32) -> &[u8]
        requires { atom < length self.now }
        ensures { slice_get self.now atom ≡ Some result.now }
    {
        self.texts.text(atom as usize)
    }

    /// The text of a number; one that isn't below the length has the empty text.
    pub fn text_of(&self, atom: u32) -> &[u8]
        ensures { result.now ≡ text_of self.now atom }
    {
        if atom < self.len() {
            self.text(atom)
        } else {
            b""
        }
    }

    /// How many texts there are.
    pub fn len(&self) -> u32
        ensures len { result ≡ length self.now }
        ensures table { IsTable self.now }
    {
        self.texts.len() as u32
    }
}

#[cfg(test)]
mod tests {
    use super::*;
    use std::test::Fail;

    #[test]
    fn numbers_texts(rt: HostRuntime) -> Result<(), Fail> {
        let mut atoms = Atoms::new(rt.alloc());
        assert_eq!(rt; atoms.intern(b"true")?, 0);
        assert_eq!(rt; atoms.intern(b"")?, 1);
        assert_eq!(rt; atoms.intern(b"true")?, 0);
        assert_eq!(rt; atoms.len(), 2);
        assert_eq!(rt; atoms.text(0), b"true".as_slice());
        assert_eq!(rt; atoms.text(1), b"".as_slice());
        assert_eq!(rt; atoms.place(b"true"), Some(0));
        assert_eq!(rt; atoms.place(b"new"), None);
        assert_eq!(rt; atoms.text_of(0), b"true".as_slice());
        assert_eq!(rt; atoms.text_of(2), b"".as_slice());
        Ok(())
    }

    // Also shows that look-up is fast enough for a full table.
    #[test]
    fn refuses_a_new_text_when_full(rt: HostRuntime) -> Result<(), Fail> {
        let mut atoms = Atoms::new(rt.alloc());
        for n in 0..1u32 << 20 {
            atoms.intern(n.to_be_bytes().as_slice())?;
        }
        assert_eq!(rt; atoms.len(), 1 << 20);
        assert_eq!(rt; atoms.intern(b"new"), Err(AtomFault::TooManyAtoms));
        assert_eq!(rt; atoms.intern(7u32.to_be_bytes().as_slice()), Ok(7));
        assert_eq!(rt; atoms.len(), 1 << 20);
        Ok(())
    }

    #[test]
    fn faults_print_as_their_names(rt: HostRuntime) -> Result<(), Fail> {
        let text = format!(in rt.alloc(); "{} {}", AtomFault::TooManyAtoms, AtomFault::Memory)?;
        assert_eq!(rt; text.as_str(), "TooManyAtoms Memory");
        Ok(())
    }
}
