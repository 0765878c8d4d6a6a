//! The calls of the plain commons.
ghost use Rattle.std.specs.Prelude.{◌≡◌, ◌⊎◌, ℕ, ◌+◌, ◌^◌, ◌<◌, ◌≤◌, ◌↔◌, length};
ghost use Rattle.std.specs.Prelude.{IfErr, IfSome, IfNone, IsNone, IsOk, None, OnOk};
ghost use Rattle.commons.specs.Changes.{child_at, Claims, KeepsOthers, Learns, LooksInVain, Refuses};
ghost use Rattle.std.proofs.Common.{sym};
ghost use Rattle.commons.specs.PlainLaws.{same_is_later, later_on};
ghost use Rattle.commons.specs.Plain.{IsPassIn, IsApartIn, IsLaterIn, view_in, claim_in};
ghost use Rattle.commons.specs.Plain.{area_size_in, log_size_in, log_in};

use crate::contract::{AreaFull, Commons, LogFull};
use crate::plain::{Account, PlainCommons, PlainPass};
use crate::view::Refusal;
use hy_terms::Memory;
use hy_words::tags::SPAWN;
use hy_words::{payload, tag};

// The child that a spawn entry at this place names.
fn child_of(header: u64, place: u64) -> Option<u64>
    requires { place < 2 ^ 32 }
    ensures { result ≡ child_at header place }
{
    if tag(header) == SPAWN {
        Some(place + 1)
    } else {
        None
    }
}

// One more, unless the count stands at its last value.
fn counted(count: u64) -> u64
    ensures { (result ≡ count + 1) ⊎ ((result ≡ count) × (count ≡ 18446744073709551615)) }
{
    count.saturating_add(1)
}

impl Commons for PlainCommons {
    type Pass = PlainPass;

    ghost area_size = { λ c. area_size_in c };

    ghost log_size = { λ c. log_size_in c };

    ghost is_pass = { λ c p. IsPassIn c p };

    ghost apart = { λ p q. IsApartIn p q };

    ghost view = { λ c p. view_in c p };

    ghost later = { λ c d. IsLaterIn c d };

    fn claim(&mut self, pass: &mut PlainPass, n: u64) -> Result<(), AreaFull>
        requires pass { IsPassIn self.old pass.old }
        requires first { (view_in self.old pass.old).refused ≡ None }
        requires bounds { (1 ≤ n) × (n ≤ area_size_in self.old + 1) }
        ensures later { IsLaterIn self.old self.new }
        ensures others { KeepsOthers IsPassIn IsApartIn view_in self.old pass.old
            self.new pass.new }
        ensures owns { OnOk result ((old : ℕ)
            × ((view_in self.old pass.old).block_end ≤ old) × (old + n ≤ area_size_in self.old)
            × Claims (view_in self.old pass.old) old n (view_in self.new pass.new)) }
        ensures full { IfErr result (λ e. (e.asked ≡ n) × (e.capacity ≡ area_size_in self.old)
            × (area_size_in self.old < e.old + n)) }
        ensures refused { IfErr result (λ e.
            Refuses (view_in self.old pass.old) e.old n (view_in self.new pass.new)) }
        // On one thread the old word is the claim word itself.
        ensures claimed { claim_in self.new ≡ claim_in self.old + n }
        ensures from_claim_word { OnOk result (
            (view_in self.new pass.new).block_start ≡ claim_in self.old) }
        ensures found { IfErr result (λ e. e.old ≡ claim_in self.old) }
        ensures exactly { IsOk result ↔ (claim_in self.old + n ≤ area_size_in self.old) }
    {
        let old = self.claim;
        let capacity = self.area.len() as u64;
        let mut account = self.accounts[pass.slot];
        account.requests += n;
        self.claim = old + n;
        if old > capacity || n > capacity - old {
            account.refused = Some(Refusal { old, asked: n });
            self.accounts[pass.slot] = account;
            return Err(AreaFull {
                old,
                asked: n,
                capacity,
            });
        }
        account.block_start = old;
        account.block_end = old + n;
        self.accounts[pass.slot] = account;
        Ok(())
    }

    fn put(&mut self, pass: &mut PlainPass, word: u64) -> u64 {
        let mut account = self.accounts[pass.slot];
        let place = account.block_start;
        self.area[place as usize] = word;
        account.block_start = place + 1;
        account.puts += 1;
        self.accounts[pass.slot] = account;
        place
    }

    fn get(&mut self, pass: &mut PlainPass, place: u64) -> u64 {
        let _pass = pass;
        self.area[place as usize]
    }

    fn append(&mut self, pass: &mut PlainPass, entry: u64) -> Result<u64, LogFull> {
        let place = self.log.len() as u64;
        let mut account = self.accounts[pass.slot];
        if place == self.log_size {
            account.known = place;
            self.accounts[pass.slot] = account;
            return Err(LogFull { seen: place });
        }
        let header = self.area[payload(entry) as usize];
        self.log.push_reserved(entry);
        account.known = place + 1;
        account.unborn = child_of(header, place);
        self.accounts[pass.slot] = account;
        Ok(place)
    }

    fn look(&mut self, pass: &mut PlainPass) -> Option<u64>
        requires pass { IsPassIn self.old pass.old }
        ensures later { IsLaterIn self.old self.new }
        ensures others { KeepsOthers IsPassIn IsApartIn view_in self.old pass.old
            self.new pass.new }
        ensures place { IfSome result (λ place.
            (place ≡ length (view_in self.old pass.old).known) × (place < log_size_in self.old)) }
        ensures learns { IfSome result (λ place.
            (length (view_in self.new pass.new).known ≡ place + 1)
            × Learns (view_in self.old pass.old) (view_in self.new pass.new).known
            (view_in self.new pass.new)) }
        ensures none { IfNone result (
            LooksInVain (view_in self.old pass.old) (view_in self.new pass.new)) }
        // On one thread it finds nothing exactly where the pass knows all that was written.
        ensures exactly { IsNone result ↔
            (length (view_in self.old pass.old).known ≡ length (log_in self.old)) }
        ensures last_count { IfNone result (
            (view_in self.old pass.old).looks ≡ 18446744073709551615
            → (view_in self.new pass.new).looks ≡ 18446744073709551615) }
    {
        let mut account = self.accounts[pass.slot];
        let place = account.known;
        if place < self.log.len() as u64 {
            account.known = place + 1;
            self.accounts[pass.slot] = account;
            return Some(place);
        }
        account.looks = counted(account.looks);
        self.accounts[pass.slot] = account;
        None
    }

    fn entry(&mut self, pass: &mut PlainPass, place: u64) -> u64 {
        let _pass = pass;
        payload(self.log[place as usize])
    }

    fn birth(&mut self, pass: &mut PlainPass) -> Result<PlainPass, Memory> {
        let mut account = self.accounts[pass.slot];
        let pid = account.unborn.unwrap_or(0);
        account.unborn = None;
        self.accounts[pass.slot] = account;
        let slot = self.accounts.len();
        self.accounts.push(Account {
            pid,
            parent: Some(account.pid),
            known: account.known,
            unborn: None,
            block_start: 0,
            block_end: 0,
            looks: 0,
            puts: 0,
            requests: 0,
            refused: None,
        })?;
        Ok(PlainPass { slot, pid })
    }

    fn tell(&mut self, from: &mut PlainPass, to: &mut PlainPass) -> Result<(), Memory> {
        let known = self.accounts[from.slot].known;
        let mut account = self.accounts[to.slot];
        account.known = account.known.max(known);
        self.accounts[to.slot] = account;
        Ok(())
    }

    fn known(&self, pass: &PlainPass) -> u64 {
        self.accounts[pass.slot].known
    }

    fn room(&self, pass: &PlainPass) -> u64 {
        let account = self.accounts[pass.slot];
        account.block_end - account.block_start
    }

    ghost later_same = { same_is_later };

    ghost later_later = { later_on };

    ghost later_sizes = { λ a b h. (h.area_size, h.log_size) };

    ghost apart_both = { λ p q h e. h (sym e) };

    ghost sound = { λ c p h. h.sound };
}
