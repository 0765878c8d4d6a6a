ghost use Rattle.std.specs.Prelude.{◌≡◌, ◌+◌, ◌-◌, ◌^◌, ◌<◌, ◌≤◌, [], ◌∷◌, ◌++◌, length, max, slice_index, OnOk, OnErr, IsOkUnless, Err};

use std::alloc::Global;
use std::marker::Model;
use thiserror::Error;

/// Why room in a heap was not reserved.
#[derive(Debug, Drop, Error)]
pub enum HeapFault {
    /// The heap has `used` words, `asked` more were asked for, and it may have no more than
    /// `limit`.
    #[error("HeapFull")]
    HeapFull { used: u64, asked: u64, limit: u64 },
    #[error("Memory")]
    Memory,
}

/// The words of the cells that one process owns. They are never taken away before the process ends.
#[derive(Drop)]
pub struct Heap {
    words: Vec<u64>,
    limit: u64,
    spare: u64,
}

impl Model for Heap {
    ghost use Rattle.std.specs.Prelude.{◌+◌, ◌≤◌, vec_len, vec_capacity};
    ghost use Rattle.hy_words.specs.Heaps.{HeapContent};

    ghost Value = { HeapContent };

    ghost view = { λ h. record { words = h.words.items; limit = h.limit; spare = h.spare } };

    ghost invariant = { λ h. (vec_len h.words + h.spare ≤ vec_capacity h.words)
        × (vec_len h.words + h.spare ≤ h.limit) };
}

impl Heap {
    /// An empty heap that may have up to `limit` words.
    pub fn new(alloc: Global, limit: u64) -> Heap
        ensures { result ≡ record { words = []; limit = limit; spare = 0 } }
    {
        Heap {
            words: Vec::new(alloc),
            limit,
            spare: 0,
        }
    }

    /// Makes room for `n` words. Room that was reserved before and not used stays.
    pub fn reserve(&mut self, n: u64) -> Result<(), HeapFault>
        ensures ok { OnOk result (self.new ≡ record self.old { spare = max self.old.spare n }) }
        ensures err { OnErr result (self.new ≡ self.old) }
        ensures full { self.old.limit < length self.old.words + n
            → result ≡ Err (HeapFault.HeapFull (length self.old.words) n self.old.limit) }
        ensures room { length self.old.words + n ≤ self.old.limit
            → IsOkUnless result HeapFault.Memory }
    {
        if n <= self.spare {
            return Ok(());
        }
        let used = self.words.len() as u64;
        if n > self.limit - used {
            return Err(HeapFault::HeapFull {
                used,
                asked: n,
                limit: self.limit,
            });
        }
        if self.words.reserve(n as usize).is_err() {
            return Err(HeapFault::Memory);
        }
        self.spare = n;
        Ok(())
    }

    /// Appends a word, and answers its place.
    pub fn push(&mut self, word: u64) -> u64
        requires { 0 < self.old.spare }
        ensures place { result ≡ length self.old.words }
        ensures pushed { self.new ≡ record self.old {
          words = self.old.words ++ word ∷ [];
          spare = self.old.spare - 1;
        } }
    {
        let place = self.words.len() as u64;
        self.words.push_reserved(word);
        self.spare -= 1;
        place
    }

    /// How many words there are.
    pub fn len(&self) -> u64
        ensures len { result ≡ length self.now.words }
        ensures few { length self.now.words + self.now.spare ≤ self.now.limit }
    {
        self.words.len() as u64
    }

    /// The word at this place.
    pub fn word(&self, place: u64) -> u64
        requires { place < length self.now.words }
        ensures word { result ≡ slice_index self.now.words place }
        ensures few { length self.now.words < 2 ^ 64 }
    {
        self.words[place as usize]
    }
}
