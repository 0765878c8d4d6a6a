//! The commons with its memory: its beginning and its end.
ghost use Rattle.std.specs.Prelude.{◌≡◌, ◌+◌, IfOk, map};
ghost use Rattle.std.specs.List.{All};
ghost use Rattle.commons.specs.Views.{IsAreaSize, IsLogSize};
ghost use Rattle.commons.specs.Rule.{IsKept};
ghost use Rattle.commons.specs.Steps.{first_view};
ghost use Rattle.commons.specs.Closing.{HasChildren};

use crate::passes::WordPass;
use crate::plays::Gathering;
use crate::reading::{copied, written_places};
use crate::rule::{SeatView, SharedRule, Sizes};
use crate::word_link::WordLink;
use atomic_table::{Seat, Table};
use commons::Final;
use hy_terms::Memory;
use hy_words::WordList;
use std::alloc::Global;

/// A commons that threads share. Its table has the claim word, then the words of the log, then
/// those of the area, and each of them changes in single atomic steps.
#[derive(Drop)]
pub struct WordCommons {
    pub(crate) table: Table<u8, SeatView, Sizes, SharedRule, Global>,
    pub(crate) area: u64,
    pub(crate) log: u64,
    pub(crate) alloc: Global,
    ghost sized: { (table.shared.key.area ≡ area) × (table.shared.key.log ≡ log)
        × (table.shared.table_id.words ≡ 1 + log + area) },
    ghost no_slots: { table.shared.table_id.slots ≡ 0 },
    ghost limited: { IsAreaSize area × IsLogSize log },
}

impl WordCommons {
    ghost use Rattle.commons_words.specs.Passes.{IsPassIn, view_of, area_size_in, log_size_in};
    ghost use Rattle.commons_words.specs.Passes.{IsLinkTo, HasGathered, with_joined};
    ghost use Rattle.commons_words.specs.declared.rule.Role.TheVariants.{Process};

    /// A commons with `area` words and `log` places of which none is written, and the pass with pid
    /// 0, which knows nothing yet. `area` is from 256 to 67,108,864, and `log` from 1 to 4,194,304.
    /// It takes all memory that the commons will need before `close`. The table copies its words
    /// from a list of zeros, so for a moment each of them stands twice.
    pub fn new(alloc: Global, area: u64, log: u64) -> Result<(WordCommons, WordPass), Memory>
        requires area { IsAreaSize area }
        requires log { IsLogSize log }
        ensures sizes { IfOk result (λ r. (area_size_in r.0 ≡ area) × (log_size_in r.0 ≡ log)) }
        ensures pass { IfOk result (λ r. IsPassIn r.0 r.1) }
        ensures view { IfOk result (λ r. view_of r.1 ≡ first_view area) }
    {
        let words = vec![in alloc; 0u64; 1 + log as usize + area as usize]?;
        let sizes = Sizes { area, log };
        let Ok((table, seat)) = Table::of_words(alloc, words.as_slice(), &sizes) else {
            return Err(Memory);
        };
        let commons = WordCommons {
            table,
            area,
            log,
            alloc,
        };
        let pass = WordPass {
            seat,
            known: 0,
            block_start: 0,
            block_end: 0,
        };
        Ok((commons, pass))
    }

    /// A link, through which passes make their calls.
    pub fn link(&self) -> WordLink<'_>
        ensures { IsLinkTo self.now result }
    {
        WordLink {
            table: &self.table.shared,
            area: self.area,
            log: self.log,
        }
    }

    // Joins a pass into the seat of another.
    fn gather(&self, base: &mut Seat<u8, SeatView>, pass: WordPass)
        requires table { base.old.table_id ≡ self.now.table.shared.table_id }
        requires base { base.old.me.0.role ≡ Process }
        requires pass { IsPassIn self.now pass }
        ensures table { base.new.table_id ≡ base.old.table_id }
        ensures base { base.new.me ≡ with_joined base.old.me (view_of pass) }
    {
        let WordPass {
            seat,
            known: _,
            block_start: _,
            block_end: _,
        } = pass;
        self.table.shared.join_seat::<Gathering>(base, seat);
    }

    // Joins all passes into the seat of one.
    fn gather_all(&self, first: WordPass, rest: Vec<WordPass>) -> Seat<u8, SeatView>
        requires first { IsPassIn self.now first }
        requires rest { All (λ p. IsPassIn self.now p) rest.items }
        ensures table { result.table_id ≡ self.now.table.shared.table_id }
        ensures base { HasGathered (view_of first) (map view_of rest.items) result.me }
    {
        let WordPass {
            seat,
            known: _,
            block_start: _,
            block_end: _,
        } = first;
        let mut base = seat;
        for pass in rest {
            self.gather(&mut base, pass);
        }
        base
    }

    /// The end of the commons, where all its passes are given back: the one with pid 0 and, with
    /// each pass, the children that it bore. The rule holds of what is left. It takes the memory
    /// for the words that are left first; where there is none, the commons is given up.
    pub fn close(self, passes: Vec<WordPass>) -> Result<Final, Memory>
        requires passes { All (λ p. IsPassIn self p) passes.items }
        requires children { HasChildren (map view_of passes.items) }
        ensures rule { IfOk result (λ f. IsKept (area_size_in self) (log_size_in self)
            f.claimed f.log f.area (map view_of passes.items)) }
    {
        let mut rest = passes;
        let Some(first) = rest.pop() else {
            unreachable!()
        };
        let log_memory = Vec::with_capacity(self.alloc, self.log as usize)?;
        let area_memory = Vec::with_capacity(self.alloc, self.area as usize)?;
        let base = self.gather_all(first, rest);
        let places = self.log as usize;
        let words = self.area as usize;
        let closed = self.table.close_with(base);
        let claimed = closed.word(0);
        let written = written_places(&closed, places);
        let log = copied(&closed, 1, written, log_memory);
        let area = copied(&closed, 1 + places, words, area_memory);
        closed.free();
        Ok(Final {
            log: WordList::from_vec(log),
            area: WordList::from_vec(area),
            claimed,
        })
    }
}
