//! The calls of the commons through a link.
ghost use Rattle.std.specs.Prelude.{◌≡◌, ◌+◌, ◌<◌, ◌≤◌, refl};
ghost use Rattle.std.proofs.Common.{◌∙◌, ap};
ghost use Rattle.commons_words.specs.declared.word_link.WordLink.{WordLink};
ghost use Rattle.commons_words.specs.Passes.{IsPassOf, view_of, area_size_of, log_size_of};

use crate::passes::WordPass;
use crate::word_link::WordLink;
use commons::{AreaFull, Commons, Link, LogFull};
use hy_terms::Memory;

/// No call waits for another thread. Each makes a fixed number of atomic steps, but for `append`,
/// which makes one for each place that it tries. `birth` and `tell` always answer Ok.
impl<'a> Commons for WordLink<'a> {
    type Pass = WordPass;

    ghost area_size = { λ c. area_size_of c };

    ghost log_size = { λ c. log_size_of c };

    ghost is_pass = { λ c p. IsPassOf c p };

    ghost apart = { λ p q. Unit {0} };

    ghost view = { λ c p. view_of p };

    ghost later = { λ c d. d ≡ c };

    fn claim(&mut self, pass: &mut WordPass, n: u64) -> Result<(), AreaFull> {
        self.claim_words(pass, n)
    }

    fn put(&mut self, pass: &mut WordPass, word: u64) -> u64 {
        self.put_word(pass, word)
    }

    fn get(&mut self, pass: &mut WordPass, place: u64) -> u64 {
        self.get_word(pass, place)
    }

    fn append(&mut self, pass: &mut WordPass, entry: u64) -> Result<u64, LogFull> {
        while pass.known < self.log {
            let place = pass.known;
            if self.append_once(pass, entry) {
                return Ok(place);
            }
        }
        Err(LogFull { seen: self.log })
    }

    fn look(&mut self, pass: &mut WordPass) -> Option<u64> {
        self.look_next(pass)
    }

    fn entry(&mut self, pass: &mut WordPass, place: u64) -> u64 {
        self.known_entry(pass, place)
    }

    fn birth(&mut self, pass: &mut WordPass) -> Result<WordPass, Memory> {
        Ok(self.birth_child(pass))
    }

    fn tell(&mut self, from: &mut WordPass, to: &mut WordPass) -> Result<(), Memory> {
        self.tell_known(from, to);
        Ok(())
    }

    fn known(&self, pass: &WordPass) -> u64 {
        pass.known
    }

    fn room(&self, pass: &WordPass) -> u64 {
        pass.block_end - pass.block_start
    }

    ghost later_same = { λ c. refl };

    ghost later_later = { λ a b c f g. g ∙ f };

    ghost later_sizes = { λ a b h.
        (ap (λ (c : WordLink). c.area) h, ap (λ (c : WordLink). c.log) h) };

    ghost apart_both = { λ p q h. tt };

    ghost sound = { λ c p h. h.sound };
}

impl<'a> Link for WordLink<'a> {
    ghost one_state = { λ a b h. h };

    ghost all_apart = { λ p q. tt };
}
