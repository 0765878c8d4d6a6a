ghost use Rattle.std.specs.Prelude.{◌≡◌, ◌<◌, [], ◌∷◌, ◌++◌, length, map, slice_get, IfOk, IfSome, OnOk, OnErr, None, Some};
ghost use Rattle.hy_terms.specs.Naming.{named, place_in, StandOnce};

use crate::memory::Memory;
use indexmap::IndexSet;
use std::alloc::{AllocError, Global};
use std::marker::Model;

/// A table of texts, each once, however many, in the order in which they came. The place of a text
/// is looked up and not searched.
///
/// A contract sees it as the list of its texts.
#[derive(Drop)]
pub struct TextTable {
    texts: IndexSet<Vec<u8>>,
}

impl Model for TextTable {
    ghost use Rattle.std.specs.Prelude.{List, ℕ, map};

    ghost Value = { List (List ℕ) };

    ghost view = { λ t. map (λ text. text.items) t.texts.keys };
}

// The place of a text among the keys.
fn place_of(texts: &IndexSet<Vec<u8>>, text: &[u8]) -> Option<usize>
    ensures place { result ≡ place_in (map (λ key. key.items) texts.now.keys) text.now }
    ensures within { IfSome result (λ place. place < length texts.now.keys) }
{
    texts.get_index_of(text)
}

// Puts a text that is not among the keys behind them.
fn add(texts: &mut IndexSet<Vec<u8>>, text: &[u8]) -> Result<(), AllocError>
    requires { place_in (map (λ key. key.items) texts.old.keys) text.now ≡ None }
    ensures ok { OnOk result (map (λ key. key.items) texts.new.keys ≡ map (λ key. key.items)
        texts.old.keys ++ text.now ∷ []) }
    ensures err { OnErr result (texts.new.keys ≡ texts.old.keys) }
{
    let copy = Vec::from_slice(*texts.allocator(), text)?;
    texts.insert_full(copy)?;
    Ok(())
}

impl TextTable {
    /// No texts.
    pub fn new(alloc: Global) -> TextTable
        ensures { result ≡ [] }
    {
        TextTable {
            texts: IndexSet::new(alloc),
        }
    }

    /// The place of a text, where it has one.
    pub fn place(&self, text: &[u8]) -> Option<usize>
        ensures place { result ≡ place_in self.now text.now }
        ensures within { IfSome result (λ place. place < length self.now) }
    {
        place_of(&self.texts, text)
    }

    /// The place of a text, which goes last where it is new. Only a new text can fail, and leaves
    /// the table as it was.
    pub fn name(&mut self, text: &[u8]) -> Result<usize, Memory>
        ensures ok { IfOk result (λ place. named self.old text.now ≡ (place, self.new)) }
        ensures err { OnErr result (self.new ≡ self.old) }
    {
        if let Some(place) = place_of(&self.texts, text) {
            return Ok(place);
        }
        let place = self.texts.len();
        add(&mut self.texts, text)?;
        Ok(place)
    }

    /// The text of a place.
    pub fn text(&self, place: usize) -> &[u8]
        requires { place < length self.now }
        ensures { slice_get self.now place ≡ Some result.now }
    {
        self.texts[place].as_slice()
    }

    /// How many texts there are. Each stands once.
    pub fn len(&self) -> usize
        ensures len { result ≡ length self.now }
        ensures once { StandOnce self.now }
    {
        self.texts.len()
    }
}
