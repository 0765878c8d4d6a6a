ghost use Rattle.std.specs.Prelude.{◌≡◌, ◌<◌, [], ◌∷◌, ◌++◌, length, OnOk, OnErr, Some, slice_get};

use crate::Memory;
use std::alloc::Global;
use std::marker::Model;

/// The words of a command line, in order. A word may stand twice.
///
/// A contract sees them as the list of their texts.
#[derive(Drop)]
pub struct Words {
    words: Vec<String>,
}

impl Model for Words {
    ghost use Rattle.std.specs.Prelude.{List, ℕ, map};
    ghost use Rattle.std.specs.String.{string_bytes};

    ghost Value = { List (List ℕ) };

    ghost view = { λ w. map string_bytes w.words.items };
}

impl Words {
    /// No words.
    pub fn new(alloc: Global) -> Words
        ensures { result ≡ [] }
    {
        Words {
            words: Vec::new(alloc),
        }
    }

    /// Puts a word behind the others.
    pub fn push(&mut self, word: &str) -> Result<(), Memory>
        ensures ok { OnOk result (self.new ≡ self.old ++ word.now ∷ []) }
        ensures err { OnErr result (self.new ≡ self.old) }
    {
        let copy = String::from_str(*self.words.allocator(), word)?;
        self.words.push(copy)?;
        Ok(())
    }

    /// How many words there are.
    pub fn len(&self) -> u64
        ensures { result ≡ length self.now }
    {
        self.words.len() as u64
    }

    /// The word at a place, counted from 0.
    pub fn word(&self, place: u64) -> &str
        requires { place < length self.now }
        ensures { slice_get self.now place ≡ Some result.now }
    {
        self.words[place as usize].as_str()
    }
}

#[cfg(test)]
mod tests {
    use super::*;
    use std::test::Fail;

    #[test]
    fn keeps_words_in_order(rt: HostRuntime) -> Result<(), Fail> {
        let mut words = Words::new(rt.alloc());
        words.push("--mode")?;
        words.push("")?;
        words.push("--mode")?;
        assert_eq!(rt; words.len(), 3);
        assert_eq!(rt; words.word(0), "--mode");
        assert_eq!(rt; words.word(1), "");
        assert_eq!(rt; words.word(2), "--mode");
        Ok(())
    }
}
