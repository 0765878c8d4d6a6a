ghost use Rattle.std.specs.Prelude.{◌≡◌, ℕ, ◌+◌, ◌<◌, ◌≤◌, length, slice_index};
ghost use Rattle.std.specs.Prelude.{IfOk, IfErr, OnOk, OnErr, IfSome, IfNone, IsSome, Some, None};
ghost use Rattle.commons.specs.declared.view.View.{View};
ghost use Rattle.hy_words.specs.Words.{area_word_of};
ghost use Rattle.commons.specs.Views.{KnowsPlace, MayPut, MayAppend, IsSound};
ghost use Rattle.commons.specs.Steps.{longer};
ghost use Rattle.commons.specs.Changes.{Claims, Refuses, Puts, Reads, Learns, Appends, LooksInVain};
ghost use Rattle.commons.specs.Changes.{IsChildOf, Bears, GivesUp};
ghost use Rattle.commons.specs.Changes.{KeepsOthers, StaysApart, IsApartFrom};

use hy_terms::Memory;

/// A claim that found no room: the claim word that it found, the words that it asked for, and the
/// capacity of the area.
#[derive(Clone, Copy, Debug, PartialEq, Eq)]
pub struct AreaFull {
    pub old: u64,
    pub asked: u64,
    pub capacity: u64,
}

/// An append that won no place of the log: the number of places, all of which the pass then knows.
#[derive(Clone, Copy, Debug, PartialEq, Eq)]
pub struct LogFull {
    pub seen: u64,
}

/// The area and the log that processes share. Each process owns one pass. What a pass knows is told
/// by the commons and the pass together.
///
/// Each call wants a pass of this commons, and leaves a later state of the commons. The pass that
/// it changes is still one of it, and so is each pass that was apart from it; of those nothing
/// changes but that more words may be read or written.
pub trait Commons {
    type Pass: Send + Drop;

    /// The number of area words, written or not.
    ghost area_size: { Self → ℕ };

    /// The number of places of the log, written or not.
    ghost log_size: { Self → ℕ };

    /// The pass is one of this commons.
    ghost is_pass: { Self → Self.Pass → Type 0 };

    /// The two passes aren't the same one, so that what one does leaves the other as it is.
    ghost apart: { Self.Pass → Self.Pass → Type 0 };

    /// What the pass knows, and what it did.
    ghost view: { Self → Self.Pass → View };

    /// The second is a state of the commons at or after the first.
    ghost later: { Self → Self → Type 0 };

    /// Adds `n` to the claim word. `n` is at least 1, and at most one more than the capacity of the
    /// area; no claim of the pass was refused before. Where the old word and `n` fit the capacity,
    /// the pass owns the `n` words from the old word on, which lie behind its former block, and
    /// gives the rest of that up. Else the claim is refused, and tells the old word; the block
    /// stays, and the pass may not claim again.
    fn claim(&mut self, pass: &mut Self::Pass, n: u64) -> Result<(), AreaFull>
        requires pass { is_pass self.old pass.old }
        requires first { (view self.old pass.old).refused ≡ None }
        requires bounds { (1 ≤ n) × (n ≤ area_size self.old + 1) }
        ensures later { later self.old self.new }
        ensures others { KeepsOthers is_pass apart view self.old pass.old self.new pass.new }
        ensures owns { OnOk result ((old : ℕ)
            × ((view self.old pass.old).block_end ≤ old) × (old + n ≤ area_size self.old)
            × Claims (view self.old pass.old) old n (view self.new pass.new)) }
        ensures full { IfErr result (λ e. (e.asked ≡ n) × (e.capacity ≡ area_size self.old)
            × (area_size self.old < e.old + n)) }
        ensures refused { IfErr result (λ e.
            Refuses (view self.old pass.old) e.old n (view self.new pass.new)) };

    /// Writes the next word of the block, and answers its place. The block has a free word. The
    /// word is a header, a scalar, or the area word of a tuple or cons that the pass knows.
    fn put(&mut self, pass: &mut Self::Pass, word: u64) -> u64
        requires pass { is_pass self.old pass.old }
        requires room { (view self.old pass.old).block_start < (view self.old pass.old).block_end }
        requires word { MayPut (area_size self.old) (view self.old pass.old) word }
        ensures later { later self.old self.new }
        ensures others { KeepsOthers is_pass apart view self.old pass.old self.new pass.new }
        ensures place { result ≡ (view self.old pass.old).block_start }
        ensures put { Puts (view self.old pass.old) word (view self.new pass.new) };

    /// The word at a place of a cell that the pass knows. It was written, so it isn't 0.
    fn get(&mut self, pass: &mut Self::Pass, place: u64) -> u64
        requires pass { is_pass self.old pass.old }
        requires place { KnowsPlace (area_size self.old) (view self.old pass.old) place }
        ensures later { later self.old self.new }
        ensures others { KeepsOthers is_pass apart view self.old pass.old self.new pass.new }
        ensures word { Reads (view self.old pass.old) place result (view self.new pass.new) };

    /// Tries places of the log from the end of the known ones on, and answers the one that it won.
    /// The entry is whole among the words that the pass read or wrote, and names the pass as its
    /// actor; a print has as its text the number of the pass's prints so far. The pass names no
    /// unborn child. Each place that it lost is known then, and so is its own. After a spawn entry
    /// at a place the pass names the child one above it. Where it won no place, it knows the whole
    /// log, and nothing else changes.
    fn append(&mut self, pass: &mut Self::Pass, entry: u64) -> Result<u64, LogFull>
        requires pass { is_pass self.old pass.old }
        requires born { (view self.old pass.old).unborn ≡ None }
        requires entry { MayAppend (area_size self.old) (view self.old pass.old) entry }
        ensures later { later self.old self.new }
        ensures others { KeepsOthers is_pass apart view self.old pass.old self.new pass.new }
        ensures place { IfOk result (λ place.
            (length (view self.old pass.old).known ≤ place) × (place < log_size self.old)) }
        ensures appended { IfOk result (λ place.
            Appends (view self.old pass.old) entry place (view self.new pass.new)) }
        ensures full { IfErr result (λ e. (e.seen ≡ log_size self.old)
            × (length (view self.new pass.new).known ≡ log_size self.old)) }
        ensures lost { OnErr result (
            Learns (view self.old pass.old) (view self.new pass.new).known
            (view self.new pass.new)) };

    /// Loads the place of the log behind the known ones. It answers the place where it found a
    /// word, and knows that word then. It answers nothing where it found none, or where all places
    /// are known, and counts that.
    fn look(&mut self, pass: &mut Self::Pass) -> Option<u64>
        requires pass { is_pass self.old pass.old }
        ensures later { later self.old self.new }
        ensures others { KeepsOthers is_pass apart view self.old pass.old self.new pass.new }
        ensures place { IfSome result (λ place.
            (place ≡ length (view self.old pass.old).known) × (place < log_size self.old)) }
        ensures learns { IfSome result (λ place. (length (view self.new pass.new).known ≡ place + 1)
            × Learns (view self.old pass.old) (view self.new pass.new).known
            (view self.new pass.new)) }
        ensures none { IfNone result (
            LooksInVain (view self.old pass.old) (view self.new pass.new)) };

    /// The place in the area of the entry that a known log word names. The pass knows that cell.
    fn entry(&mut self, pass: &mut Self::Pass, place: u64) -> u64
        requires pass { is_pass self.old pass.old }
        requires place { place < length (view self.old pass.old).known }
        ensures later { later self.old self.new }
        ensures others { KeepsOthers is_pass apart view self.old pass.old self.new pass.new }
        ensures same { view self.new pass.new ≡ view self.old pass.old }
        ensures entry { area_word_of result ≡ slice_index (view self.old pass.old).known place };

    /// A pass for the unborn child that the pass names, apart from its parent and from all that
    /// were apart from it. It knows what its parent knows, and did nothing yet. Whatever the
    /// answer, the parent names no child afterwards; where there was no memory, nothing else
    /// changes.
    fn birth(&mut self, pass: &mut Self::Pass) -> Result<Self::Pass, Memory>
        requires pass { is_pass self.old pass.old }
        requires names { IsSome (view self.old pass.old).unborn }
        ensures later { later self.old self.new }
        ensures others { KeepsOthers is_pass apart view self.old pass.old self.new pass.new }
        ensures child { IfOk result (λ child. is_pass self.new child
            × IsApartFrom is_pass apart self.old pass.old pass.new child) }
        ensures born { IfOk result (λ child. (q : ℕ) → (view self.old pass.old).unborn ≡ Some q
            → IsChildOf (view self.old pass.old) q (view self.new child)) }
        ensures bears { OnOk result ((q : ℕ) → (view self.old pass.old).unborn ≡ Some q
            → Bears (view self.old pass.old) q (view self.new pass.new)) }
        ensures memory { OnErr result (GivesUp (view self.old pass.old) (view self.new pass.new)) };

    /// Tells `to` what log words `from` knows, where neither names an unborn child. `to` knows the
    /// longer of both lists then. Nothing else changes, and where there was no memory nothing at
    /// all.
    fn tell(&mut self, from: &mut Self::Pass, to: &mut Self::Pass) -> Result<(), Memory>
        requires from_pass { is_pass self.old from.old }
        requires to_pass { is_pass self.old to.old }
        requires from_born { (view self.old from.old).unborn ≡ None }
        requires to_born { (view self.old to.old).unborn ≡ None }
        ensures later { later self.old self.new }
        ensures others { KeepsOthers is_pass apart view self.old to.old self.new to.new }
        ensures from_stays { is_pass self.new from.new × StaysApart apart from.old from.new }
        ensures from_same { view self.new from.new ≡ view self.old from.old }
        ensures told { OnOk result (Learns (view self.old to.old)
            (longer (view self.old to.old).known (view self.old from.old).known)
            (view self.new to.new)) }
        ensures memory { OnErr result (view self.new to.new ≡ view self.old to.old) };

    /// The number of known log places.
    fn known(&self, pass: &Self::Pass) -> u64
        requires pass { is_pass self.now pass.now }
        ensures number { result ≡ length (view self.now pass.now).known };

    /// The number of free words of the block.
    fn room(&self, pass: &Self::Pass) -> u64
        requires pass { is_pass self.now pass.now }
        ensures free { result + (view self.now pass.now).block_start
            ≡ (view self.now pass.now).block_end };

    /// A state is at or after itself.
    ghost later_same: { (c : Self) → later c c };

    /// What is later than a later state is later.
    ghost later_later: { (a : Self) (b : Self) (c : Self) → later a b → later b c → later a c };

    /// The sizes stay.
    ghost later_sizes: { (a : Self) (b : Self) → later a b
        → (area_size b ≡ area_size a) × (log_size b ≡ log_size a) };

    /// Being apart goes both ways.
    ghost apart_both: { (p : Self.Pass) (q : Self.Pass) → apart p q → apart q p };

    /// What holds of each pass between calls.
    ghost sound: { (c : Self) (p : Self.Pass) → is_pass c p
        → IsSound (area_size c) (log_size c) (view c p) };
}

/// A commons that many threads hold at once, each by a copy of one link.
pub trait Link: Commons + Copy + Send + Sync {
    /// Nothing tells a later state of a link from it: what changes is behind it.
    ghost one_state: { (a : Self) (b : Self) → Self.later a b → b ≡ a };

    /// Any two passes are apart, since none can be copied.
    ghost all_apart: { (p : Self.Pass) (q : Self.Pass) → Self.apart p q };
}
