ghost use Rattle.std.specs.Prelude.{◌≡◌};

use std::marker::Model;

/// A list of words.
#[derive(Drop)]
pub struct WordList {
    words: Vec<u64>,
}

impl Model for WordList {
    ghost use Rattle.std.specs.Prelude.{List, ℕ};

    ghost Value = { List ℕ };

    ghost view = { λ l. l.words.items };
}

impl WordList {
    /// The list of the words of a vector, in order.
    pub fn from_vec(words: Vec<u64>) -> WordList
        ensures { result ≡ words.items }
    {
        WordList { words }
    }

    /// The words, in order.
    pub fn as_slice(&self) -> &[u64]
        ensures { result.now ≡ self.now }
    {
        self.words.as_slice()
    }
}
