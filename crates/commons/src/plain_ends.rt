//! The beginning and the end of the plain commons.
ghost use Rattle.std.specs.Prelude.{◌≡◌, IfOk, map};
ghost use Rattle.std.specs.List.{All, AllPairs};
ghost use Rattle.commons.specs.Views.{IsAreaSize, IsLogSize};
ghost use Rattle.commons.specs.Rule.{IsKept};
ghost use Rattle.commons.specs.Steps.{first_view};
ghost use Rattle.commons.specs.Closing.{HasChildren};
ghost use Rattle.commons.specs.Plain.{IsPassIn, IsApartIn, view_in, area_size_in, log_size_in};

use crate::plain::{Account, Final, PlainCommons, PlainPass};
use hy_terms::Memory;
use hy_words::WordList;
use std::alloc::Global;

impl PlainCommons {
    /// A commons with `area` words and `log` places of which none is written, and the pass with pid
    /// 0, which knows nothing yet. `area` is from 256 to 67,108,864, and `log` from 1 to 4,194,304.
    /// It takes all memory that the commons will need, but that for the passes of children.
    pub fn new(alloc: Global, area: u64, log: u64) -> Result<(PlainCommons, PlainPass), Memory>
        requires area { IsAreaSize area }
        requires log { IsLogSize log }
        ensures sizes { IfOk result (λ r. (area_size_in r.0 ≡ area) × (log_size_in r.0 ≡ log)) }
        ensures pass { IfOk result (λ r. IsPassIn r.0 r.1) }
        ensures view { IfOk result (λ r. view_in r.0 r.1 ≡ first_view area) }
    {
        let words = vec![in alloc; 0u64; area as usize]?;
        let entries = Vec::with_capacity(alloc, log as usize)?;
        let mut accounts = Vec::new(alloc);
        accounts.push(Account {
            pid: 0,
            parent: None,
            known: 0,
            unborn: None,
            block_start: 0,
            block_end: 0,
            looks: 0,
            puts: 0,
            requests: 0,
            refused: None,
        })?;
        let commons = PlainCommons {
            claim: 0,
            log: entries,
            log_size: log,
            area: words,
            accounts,
        };
        Ok((commons, PlainPass { slot: 0, pid: 0 }))
    }

    /// The end of the commons, where all its passes are given back: the one with pid 0 and, with
    /// each pass, the children that it bore. The rule holds of what is left. It takes no memory.
    pub fn close(self, passes: Vec<PlainPass>) -> Result<Final, Memory>
        requires passes { All (λ p. IsPassIn self p) passes.items }
        requires apart { AllPairs IsApartIn passes.items }
        requires children { HasChildren (map (view_in self) passes.items) }
        ensures rule { IfOk result (λ f. IsKept (area_size_in self) (log_size_in self)
            f.claimed f.log f.area (map (view_in self) passes.items)) }
    {
        drop(passes);
        Ok(Final {
            log: WordList::from_vec(self.log),
            area: WordList::from_vec(self.area),
            claimed: self.claim,
        })
    }
}
