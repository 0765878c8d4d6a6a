//! A link to the commons, and its calls.
ghost use Rattle.std.specs.Prelude.{slice_index, ◌≡◌, ℕ, ◌+◌, ◌<◌, ◌≤◌, length};
ghost use Rattle.std.specs.Prelude.{OnOk, IfErr, IfSome, IfNone, MatchBool, IsSome, None};
ghost use Rattle.hy_words.specs.Words.{area_word_of};
ghost use Rattle.commons.specs.Views.{IsAreaSize, IsLogSize, KnowsPlace, MayPut, MayAppend};
ghost use Rattle.commons.specs.Steps.{bore, born_of, learnt, longer};
ghost use Rattle.commons.specs.Changes.{Claims, Refuses, Puts, Reads, Learns, LooksInVain};
ghost use Rattle.commons_words.specs.Held.{won, or_zero};

use crate::passes::WordPass;
use crate::plays::{Append, Birth, Claim, Full, Get, Known, Look, Note, Put, Settle, Telling};
use crate::rule::{SeatView, SharedRule, Sizes};
use atomic_table::Shared;
use commons::AreaFull;
use hy_words::payload;

/// A link to a `WordCommons`. Each thread may have a copy.
#[derive(Clone, Copy)]
pub struct WordLink<'a> {
    pub(crate) table: &'a Shared<u8, SeatView, Sizes, SharedRule>,
    pub(crate) area: u64,
    pub(crate) log: u64,
    ghost sized: { (table.now.key.area ≡ area) × (table.now.key.log ≡ log)
        × (table.now.table_id.words ≡ 1 + log + area) },
    ghost limited: { IsAreaSize area × IsLogSize log },
}

impl<'a> WordLink<'a> {
    ghost use Rattle.commons_words.specs.Passes.{IsPassOf, view_of};

    pub(crate) fn claim_words(&mut self, pass: &mut WordPass, n: u64) -> Result<(), AreaFull>
        requires pass { IsPassOf self.old pass.old }
        requires first { (view_of pass.old).refused ≡ None }
        requires bounds { (1 ≤ n) × (n ≤ self.old.area + 1) }
        ensures same { self.new ≡ self.old }
        ensures pass { IsPassOf self.new pass.new }
        ensures owns { OnOk result ((old : ℕ) × ((view_of pass.old).block_end ≤ old)
            × (old + n ≤ self.old.area) × Claims (view_of pass.old) old n (view_of pass.new)) }
        ensures full { IfErr result (λ e. (e.asked ≡ n) × (e.capacity ≡ self.old.area)
            × (self.old.area < e.old + n)) }
        ensures refused { IfErr result (λ e.
            Refuses (view_of pass.old) e.old n (view_of pass.new)) }
    {
        let old = self.table.fetch_add::<Claim>(&mut pass.seat, 0, n);
        if old > self.area || n > self.area - old {
            return Err(AreaFull {
                old,
                asked: n,
                capacity: self.area,
            });
        }
        pass.block_start = old;
        pass.block_end = old + n;
        Ok(())
    }

    pub(crate) fn put_word(&mut self, pass: &mut WordPass, word: u64) -> u64
        requires pass { IsPassOf self.old pass.old }
        requires room { (view_of pass.old).block_start < (view_of pass.old).block_end }
        requires word { MayPut self.old.area (view_of pass.old) word }
        ensures same { self.new ≡ self.old }
        ensures pass { IsPassOf self.new pass.new }
        ensures place { result ≡ (view_of pass.old).block_start }
        ensures put { Puts (view_of pass.old) word (view_of pass.new) }
    {
        let place = pass.block_start;
        let index = 1 + self.log as usize + place as usize;
        self.table.store::<Put>(&mut pass.seat, index, word);
        pass.block_start = place + 1;
        place
    }

    pub(crate) fn get_word(&mut self, pass: &mut WordPass, place: u64) -> u64
        requires pass { IsPassOf self.old pass.old }
        requires place { KnowsPlace self.old.area (view_of pass.old) place }
        ensures same { self.new ≡ self.old }
        ensures pass { IsPassOf self.new pass.new }
        ensures word { Reads (view_of pass.old) place result (view_of pass.new) }
    {
        let index = 1 + self.log as usize + place as usize;
        self.table.load::<Get>(&mut pass.seat, index)
    }

    pub(crate) fn look_next(&mut self, pass: &mut WordPass) -> Option<u64>
        requires pass { IsPassOf self.old pass.old }
        ensures same { self.new ≡ self.old }
        ensures pass { IsPassOf self.new pass.new }
        ensures place { IfSome result (λ place.
            (place ≡ length (view_of pass.old).known) × (place < self.old.log)) }
        ensures learns { IfSome result (λ place. (length (view_of pass.new).known ≡ place + 1)
            × Learns (view_of pass.old) (view_of pass.new).known (view_of pass.new)) }
        ensures none { IfNone result (LooksInVain (view_of pass.old) (view_of pass.new)) }
    {
        if pass.known >= self.log {
            self.table.load::<Full>(&mut pass.seat, 0);
            return None;
        }
        let place = pass.known;
        let found = self.table.load::<Look>(&mut pass.seat, 1 + place as usize);
        if found == 0 {
            return None;
        }
        pass.known = place + 1;
        Some(place)
    }

    // One try of an append: whether the place behind the known ones was won.
    pub(crate) fn append_once(&mut self, pass: &mut WordPass, entry: u64) -> bool
        requires pass { IsPassOf self.old pass.old }
        requires room { pass.old.known < self.old.log }
        requires born { (view_of pass.old).unborn ≡ None }
        requires entry { MayAppend self.old.area (view_of pass.old) entry }
        ensures same { self.new ≡ self.old }
        ensures pass { IsPassOf self.new pass.new }
        ensures known { pass.new.known ≡ pass.old.known + 1 }
        ensures view { MatchBool result (view_of pass.new ≡ won (view_of pass.old) entry)
            ((word : ℕ) × (view_of pass.new ≡ learnt (view_of pass.old) word)) }
    {
        let place = pass.known;
        let index = 1 + place as usize;
        let found = self
            .table
            .compare_exchange::<Append>(&mut pass.seat, index, 0, entry);
        pass.known = place + 1;
        found == 0
    }

    pub(crate) fn known_entry(&mut self, pass: &mut WordPass, place: u64) -> u64
        requires pass { IsPassOf self.old pass.old }
        requires place { place < length (view_of pass.old).known }
        ensures same { self.new ≡ self.old }
        ensures pass { IsPassOf self.new pass.new }
        ensures view { view_of pass.new ≡ view_of pass.old }
        ensures entry { area_word_of result ≡ slice_index (view_of pass.old).known place }
    {
        payload(self.table.load::<Known>(&mut pass.seat, 1 + place as usize))
    }

    pub(crate) fn birth_child(&mut self, pass: &mut WordPass) -> WordPass
        requires pass { IsPassOf self.old pass.old }
        requires names { IsSome (view_of pass.old).unborn }
        ensures same { self.new ≡ self.old }
        ensures pass { IsPassOf self.new pass.new }
        ensures child { IsPassOf self.new result }
        ensures parent { view_of pass.new
            ≡ bore (view_of pass.old) (or_zero (view_of pass.old).unborn) }
        ensures born { view_of result
            ≡ born_of (view_of pass.old) (or_zero (view_of pass.old).unborn) }
    {
        let seat = self.table.split_seat::<Birth>(&mut pass.seat);
        WordPass {
            seat,
            known: pass.known,
            block_start: 0,
            block_end: 0,
        }
    }

    pub(crate) fn tell_known(&mut self, from: &mut WordPass, to: &mut WordPass)
        requires from_pass { IsPassOf self.old from.old }
        requires to_pass { IsPassOf self.old to.old }
        ensures same { self.new ≡ self.old }
        ensures from_pass { IsPassOf self.new from.new }
        ensures to_pass { IsPassOf self.new to.new }
        ensures from_same { view_of from.new ≡ view_of from.old }
        ensures told { Learns (view_of to.old)
            (longer (view_of to.old).known (view_of from.old).known) (view_of to.new) }
    {
        let note = self.table.split_seat::<Note>(&mut from.seat);
        self.table.join_seat::<Telling>(&mut to.seat, note);
        self.table.load::<Settle>(&mut to.seat, 0);
        to.known = to.known.max(from.known);
    }
}
