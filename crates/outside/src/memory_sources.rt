ghost use Rattle.std.specs.Prelude.{◌≡◌, ◌≤◌, ◌<◌, List, ℕ, [], length, ◌↔◌, Some, None, true, false, IsTrue, IfOk, IfSome, IsErr, IsErrOf, OnOk, OnErr};
ghost use Rattle.outside.specs.Outside.{first_bytes, next_call, Rises, times, read_limit};

use crate::listed::is_listed;
use crate::sources::{READ_LIMIT, SourceFault, Sources};
use hy_terms::Memory;
use std::alloc::Global;
use std::collections::BTreeMap;

/// Texts in memory, by their names, with a list of the numbers of the calls that are to fail.
#[derive(Drop)]
pub struct MemorySources {
    alloc: Global,
    texts: BTreeMap<String, Vec<u8>>,
    /// The numbers of the calls of `read`, from 1, that are to fail.
    fails: Vec<u64>,
    calls: u64,
    /// The name of each call that failed.
    failed: Vec<String>,
    sure: bool,
}

impl MemorySources {
    ghost use Rattle.outside.specs.MemorySources.{text_of, count_of, is_sure, fails_of, calls_of, SameTexts, SameCalls, Gives};

    /// It has no name yet. It fails at the listed calls and for a name that it doesn't have, and
    /// nowhere else.
    pub fn new(alloc: Global, fails: Vec<u64>) -> MemorySources
        ensures told { (name : List ℕ) → text_of result name ≡ None }
        ensures counts { (name : List ℕ) → count_of result name ≡ 0 }
        ensures may_fail { is_sure result ≡ false }
        ensures fails { fails_of result ≡ fails.items }
        ensures calls { calls_of result ≡ 0 }
    {
        MemorySources {
            alloc,
            texts: BTreeMap::new(alloc),
            fails,
            calls: 0,
            failed: Vec::new(alloc),
            sure: false,
        }
    }

    /// It never fails, and a name that it doesn't have has the empty text.
    pub fn sure(alloc: Global) -> MemorySources
        ensures told { (name : List ℕ) → text_of result name ≡ Some [] }
        ensures counts { (name : List ℕ) → count_of result name ≡ 0 }
        ensures sure { is_sure result ≡ true }
        ensures calls { calls_of result ≡ 0 }
    {
        MemorySources {
            alloc,
            texts: BTreeMap::new(alloc),
            fails: Vec::new(alloc),
            calls: 0,
            failed: Vec::new(alloc),
            sure: true,
        }
    }

    /// Gives the name this text.
    pub fn add(&mut self, name: &str, text: &[u8]) -> Result<(), Memory>
        ensures ok { OnOk result (Gives self.old self.new name.now text.now) }
        ensures err { OnErr result (SameTexts self.old self.new) }
        ensures calls { SameCalls self.old self.new }
    {
        let key = String::from_str(self.alloc, name)?;
        let text = Vec::from_slice(self.alloc, text)?;
        self.texts.insert(key, text)?;
        Ok(())
    }
}

impl MemorySources {
    ghost use Rattle.outside.specs.MemorySources.{FailsAt};

    fn fails_at(&self, name: &str) -> bool
        ensures { IsTrue result ↔ FailsAt self.now name.now }
    {
        !self.sure
            && (is_listed(self.fails.as_slice(), self.calls.saturating_add(1))
                || !self.texts.contains_key(name))
    }
}

impl Sources for MemorySources {
    ghost use Rattle.outside.specs.MemorySources.{text_of, count_of, is_sure, fails_of, calls_of, FailsAt};

    ghost told = { text_of };

    ghost faults = { count_of };

    fn read(&mut self, alloc: Global, name: &str) -> Result<Vec<u8>, SourceFault>
        ensures text { IfOk result (λ text. IfSome (text_of self.old name.now)
            (λ whole. text.items ≡ first_bytes whole)) }
        ensures within { IfOk result (λ text. length text.items ≤ read_limit) }
        ensures failed { IsErrOf result SourceFault.Failed → Rises (count_of self.old name.now)
            (count_of self.new name.now) }
        ensures counts { (other : List ℕ) → count_of self.old other ≤ count_of self.new other }
        ensures same { (other : List ℕ) → text_of self.new other ≡ text_of self.old other }

        // It fails just there, and then the count always rises.
        ensures fails { FailsAt self.old name.now → IsErr result }
        ensures only { IsErrOf result SourceFault.Failed → FailsAt self.old name.now }
        ensures rises { IsErrOf result SourceFault.Failed → count_of self.old name.now < count_of
            self.new name.now }

        ensures sure { is_sure self.new ≡ is_sure self.old }
        ensures listed { fails_of self.new ≡ fails_of self.old }
        ensures calls { calls_of self.new ≡ next_call (calls_of self.old) }
    {
        let fails = self.fails_at(name);
        self.calls = self.calls.saturating_add(1);
        if fails {
            return match note(self.alloc, &mut self.failed, name) {
                Ok(()) => Err(SourceFault::Failed),
                Err(Memory) => Err(SourceFault::Memory),
            };
        }
        match self.texts.get(name) {
            Some(text) => first_of(alloc, text.as_slice()),
            None => Ok(Vec::new(alloc)),
        }
    }
}

// Notes that the name failed.
#[tactic(auto, using(crate::proofs::Counts::times_push))]
fn note(alloc: Global, failed: &mut Vec<String>, name: &str) -> Result<(), Memory>
    ensures counts { (other : List ℕ) → times other failed.old.items ≤ times other
        failed.new.items }
    ensures rises { OnOk result (times name.now failed.old.items < times name.now
        failed.new.items) }
{
    let note = String::from_str(alloc, name)?;
    failed.push(note)?;
    Ok(())
}

// The text, or its first bytes up to the limit.
#[tactic(auto, using(std::proofs::lemmas::List::take_min))]
fn first_of(alloc: Global, text: &[u8]) -> Result<Vec<u8>, SourceFault>
    ensures text { IfOk result (λ copy. copy.items ≡ first_bytes text.now) }
    ensures within { IfOk result (λ copy. length copy.items ≤ read_limit) }
    ensures memory { IsErrOf result SourceFault.Failed → ⊥ }
{
    let count = READ_LIMIT.min(text.len());
    match Vec::from_slice(alloc, &text[..count]) {
        Ok(copy) => Ok(copy),
        Err(_) => Err(SourceFault::Memory),
    }
}
