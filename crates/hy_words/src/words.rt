ghost use Rattle.std.specs.Prelude.{◌≡◌, ℕ, ◌+◌, ◌*◌, ◌^◌, ◌<◌, List};
ghost use Rattle.hy_terms.specs.Range.{IsNumber};
ghost use Rattle.hy_words.specs.Words.{IsScalar, IsHeader, IsTermHeader, IsEntryHeader, word_of, tag_of, payload_of, number_of, number_word, atom_word_of, pid_word_of, nil_word_of, private_word_of, area_word_of, tuple_header_of, cons_header_of, entry_header_of, tag_of_entry, size_of, site_of, following};
ghost use Rattle.hy_words.specs.Words.{number_tag, atom_tag, pid_tag, nil_tag, private_tag, area_tag, tuple_tag, cons_tag};
ghost use Rattle.hy_words.specs.Stands.{Stands};
ghost use Rattle.hy_terms.specs.Labelled as l;

use crate::kind::Entry;
use crate::tags;

// A header has the site at this place of its payload.
const SITE: u64 = 1 << 30;

// Numbers are kept modulo this.
const NUMBERS: i64 = 1 << 60;

// The word with this tag and payload.
fn word(tag: u8, payload: u64) -> u64
    requires tag { tag < 16 }
    requires payload { payload < 2 ^ 60 }
    ensures { result ≡ word_of tag payload }
{
    payload * 16 + u64::from(tag)
}

/// The word of a number from -2^59 to 2^59 - 1. Its payload is the number modulo 2^60.
pub fn int_word(n: i64) -> u64
    requires { IsNumber n }
    ensures word { result ≡ number_word n }
    ensures scalar { IsScalar result }
    ensures tag { tag_of result ≡ number_tag }
    ensures number { number_of (payload_of result) ≡ n }
    ensures stands { (heap : List ℕ) (area : List ℕ) → Stands heap area (l.Int n) result }
{
    let payload = if n < 0 {
        (n + NUMBERS) as u64
    } else {
        n as u64
    };
    word(tags::NUMBER, payload)
}

/// The word of the atom at this place of the program's table.
pub fn atom_word(atom: u32) -> u64
    ensures word { result ≡ atom_word_of atom }
    ensures scalar { IsScalar result }
    ensures tag { tag_of result ≡ atom_tag }
    ensures payload { payload_of result ≡ atom }
    ensures stands { (heap : List ℕ) (area : List ℕ) → Stands heap area (l.Atom atom) result }
{
    word(tags::ATOM, u64::from(atom))
}

/// The word of the pid with this number.
pub fn pid_word(pid: u64) -> u64
    requires { pid < 2 ^ 59 }
    ensures word { result ≡ pid_word_of pid }
    ensures scalar { IsScalar result }
    ensures tag { tag_of result ≡ pid_tag }
    ensures payload { payload_of result ≡ pid }
    ensures stands { (heap : List ℕ) (area : List ℕ) → Stands heap area (l.Pid pid) result }
{
    word(tags::PID, pid)
}

/// The word of nil.
pub fn nil_word() -> u64
    ensures word { result ≡ nil_word_of }
    ensures scalar { IsScalar result }
    ensures tag { tag_of result ≡ nil_tag }
    ensures payload { payload_of result ≡ 0 }
    ensures stands { (heap : List ℕ) (area : List ℕ) → Stands heap area l.Nil result }
{
    word(tags::NIL, 0)
}

/// The word of the cell that begins at this place of the process's own heap.
pub fn private_word(place: u64) -> u64
    requires { place < 2 ^ 59 }
    ensures word { result ≡ private_word_of place }
    ensures tag { tag_of result ≡ private_tag }
    ensures payload { payload_of result ≡ place }
{
    word(tags::PRIVATE, place)
}

/// The word of the cell that begins at this place of the area.
pub fn area_word(place: u64) -> u64
    requires { place < 2 ^ 59 }
    ensures word { result ≡ area_word_of place }
    ensures tag { tag_of result ≡ area_tag }
    ensures payload { payload_of result ≡ place }
{
    word(tags::AREA, place)
}

/// The header of a tuple of this size, built at this site.
pub fn tuple_header(size: u64, site: u32) -> u64
    requires size { size < 2 ^ 28 }
    requires site { site < 2 ^ 28 }
    ensures word { result ≡ tuple_header_of size site }
    ensures header { IsHeader result × IsTermHeader result }
    ensures tag { tag_of result ≡ tuple_tag }
    ensures size { size_of result ≡ size }
    ensures site { site_of result ≡ site }
    ensures following { following result ≡ size }
{
    word(tags::TUPLE, size + u64::from(site) * SITE)
}

/// The header of a cons built at this site. Its head and tail follow.
pub fn cons_header(site: u32) -> u64
    requires { site < 2 ^ 28 }
    ensures word { result ≡ cons_header_of site }
    ensures header { IsHeader result × IsTermHeader result }
    ensures tag { tag_of result ≡ cons_tag }
    ensures site { site_of result ≡ site }
    ensures following { following result ≡ 2 }
{
    word(tags::CONS, u64::from(site) * SITE)
}

/// The header of an entry of the log, with the number of words that follow it.
pub fn entry_header(kind: Entry, following: u64) -> u64
    requires { following < 2 ^ 28 }
    ensures word { result ≡ entry_header_of kind following }
    ensures header { IsHeader result × IsEntryHeader result }
    ensures tag { tag_of result ≡ tag_of_entry kind }
    ensures payload { payload_of result ≡ following }
{
    let tag = match kind {
        Entry::Send => tags::SEND,
        Entry::Spawn => tags::SPAWN,
        Entry::Print => tags::PRINT,
    };
    word(tag, following)
}

/// The tag of a word, from 0 to 15. It is 0 at a word that was not written.
pub fn tag(word: u64) -> u8
    ensures { result ≡ tag_of word }
{
    (word % 16) as u8
}

/// The payload of a word.
pub fn payload(word: u64) -> u64
    ensures { result ≡ payload_of word }
{
    word / 16
}

/// The number that a word with the tag of a number stands for, from -2^59 to 2^59 - 1.
pub fn number(word: u64) -> i64
    ensures number { result ≡ number_of (payload_of word) }
    ensures range { IsNumber result }
{
    let n = payload(word) as i64;
    if n < NUMBERS / 2 { n } else { n - NUMBERS }
}

/// The size of a tuple, by its header.
pub fn size(header: u64) -> u64
    ensures { result ≡ size_of header }
{
    payload(header) % SITE
}

/// The site that built a tuple or a cons, by its header.
pub fn site(header: u64) -> u32
    ensures { result ≡ site_of header }
{
    (payload(header) / SITE) as u32
}

/// The number of words of a cell that follow its header.
pub fn following(header: u64) -> u64
    ensures { result ≡ following header }
{
    match tag(header) {
        tags::TUPLE => size(header),
        tags::CONS => 2,
        _ => payload(header),
    }
}
