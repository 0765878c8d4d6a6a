ghost use Rattle.std.specs.Prelude.{◌≡◌, ◌++◌, take, drop, true, IfOk, OnOk};
ghost use Rattle.std.specs.List.{flat_map};
ghost use Rattle.language_cases.specs.Pieces.{begin_of, indented, most_there, name, names_line, shortened};

use crate::fault::CaseFault;
use hy_terms::{Atoms, push_atom};
use std::alloc::Global;

/// The most bytes that are written whole.
const MOST: usize = 600;

/// How many bytes of a longer text are written at each end.
const END: usize = 100;

/// Appends a text, or the two ends of a long one with its length between them.
pub fn push_shortened(out: &mut Vec<u8>, text: &[u8]) -> Result<(), CaseFault>
    ensures { OnOk result (out.new.items ≡ out.old.items ++ shortened text.now) }
{
    if text.len() <= MOST {
        out.extend_from_slice(text)?;
        return Ok(());
    }
    let (front, _) = text.split_at(END);
    let (_, back) = text.split_at(text.len() - END);
    let middle = format!(in *out.allocator(); " .. {} bytes .. ", text.len())?;
    out.extend_from_slice(front)?;
    out.extend_from_slice(middle.as_bytes())?;
    out.extend_from_slice(back)?;
    Ok(())
}

/// Appends a text with each of its lines two places in.
pub fn push_indented(out: &mut Vec<u8>, text: &[u8]) -> Result<(), CaseFault>
    ensures { OnOk result (out.new.items ≡ out.old.items ++ indented true text.now) }
{
    let mut begins = true;
    for byte in text {
        push_begin(out, begins)?;
        out.push(*byte)?;
        begins = *byte == b'\n';
    }
    Ok(())
}

/// Appends two spaces where a line begins.
fn push_begin(out: &mut Vec<u8>, begins: bool) -> Result<(), CaseFault>
    ensures { OnOk result (out.new.items ≡ out.old.items ++ begin_of begins) }
{
    if begins {
        out.extend_from_slice(b"  ")?;
    }
    Ok(())
}

/// Appends a line with the texts of a table.
pub fn push_names(out: &mut Vec<u8>, title: &str, table: &Atoms) -> Result<(), CaseFault>
    ensures { OnOk result (out.new.items ≡ out.old.items ++ names_line title.now table.now) }
{
    let names = names_in(*out.allocator(), table)?;
    out.extend_from_slice(title.as_bytes())?;
    push_shortened(out, names.as_slice())?;
    out.push(b'\n')?;
    Ok(())
}

/// The texts of a table, each a space and an atom.
fn names_in(alloc: Global, table: &Atoms) -> Result<Vec<u8>, CaseFault>
    ensures { IfOk result (λ names. names.items ≡ flat_map name table.now) }
{
    let mut names = Vec::new(alloc);
    for number in 0..table.len() {
        names.push(b' ')?;
        push_atom(&mut names, table.text(number))?;
    }
    Ok(names)
}

/// The most bytes that are written of what stands at a place.
const MOST_THERE: usize = 24;

/// What stands at a place of a text, up to so many bytes.
pub fn there(text: &[u8], place: u64) -> &[u8]
    ensures { result.now ≡ take most_there (drop place text.now) }
{
    front(from(text, place as usize))
}

/// What stands in a text from a place on.
#[tactic(auto, using(std::proofs::lemmas::List::drop_all))]
fn from(text: &[u8], place: usize) -> &[u8]
    ensures { result.now ≡ drop place text.now }
{
    if text.len() <= place {
        return &[];
    }
    let (_, rest) = text.split_at(place);
    rest
}

/// The first bytes of a text.
#[tactic(auto, using(std::proofs::lemmas::List::take_all))]
fn front(text: &[u8]) -> &[u8]
    ensures { result.now ≡ take most_there text.now }
{
    if text.len() <= MOST_THERE {
        return text;
    }
    let (front, _) = text.split_at(MOST_THERE);
    front
}
