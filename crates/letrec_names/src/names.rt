ghost use Rattle.std.specs.Prelude.{
  ◌≡◌,
  ℕ,
  ◌-◌,
  ◌<◌,
  [],
  ◌∷◌,
  ◌++◌,
  length,
  map,
  drop,
  if◌then◌else◌,
  IsSome,
  IfOk,
  OnErr,
  OnOk,
};
ghost use Rattle.hy_core.specs.Resolved.{is_name};
ghost use Rattle.hy_core.specs.Syntax.{definitions_of};
ghost use Rattle.hy_core.specs.declared.tree.FunName.{FunName as AnyName};
ghost use Rattle.indexmap.specs.IndexMap.{IsUnchanged};
ghost use Rattle.lifted_program.specs.LetrecNumbers.{number_in};
ghost use Rattle.letrec_names.specs.NestedCounts.{numbered};
ghost use Rattle.letrec_names.specs.code.Entries.{key_of as key_for, number_at as number_of_name};
ghost use Rattle.letrec_names.specs.Parts.{function_syntax};

use crate::counts::NestedCounts;
use hy_core::{FunName, Function};
use hy_terms::Memory;
use indexmap::IndexMap;
use std::alloc::Global;
use std::marker::Model;

/// A function of a letrec around, with the number that its name has outside of it.
#[derive(Clone, Copy)]
pub struct Entry {
    pub name: FunName,
    pub number: u32,
    pub around: Option<u32>,
}

/// The functions of the letrecs around a place, by name and number of parameters. To enter one, to
/// find its number and to leave it take constant time.
///
/// A contract sees it as the list of their names with their numbers, the innermost first.
#[derive(Drop)]
pub struct LetrecNames {
    alloc: Global,
    entries: Vec<Entry>,
    numbers: IndexMap<(u32, u32), Option<u32>>,
}

impl Model for LetrecNames {
    ghost use Rattle.std.specs.Prelude.{reverse};
    ghost use Rattle.lifted_program.specs.LetrecNumbers.{Reach};
    ghost use Rattle.letrec_names.specs.code.Entries.{reach_in, HasNumbers};

    ghost Value = { Reach };

    ghost view = { λ l. reach_in (reverse l.entries.items) };

    ghost invariant = { λ l. HasNumbers l.numbers (reverse l.entries.items) };
}

// A name as a key of the table.
fn key_of(name: FunName) -> (u32, u32)
    ensures { result ≡ key_for name }
{
    (name.name, name.arity)
}

// The number of a name.
fn number_at(numbers: &IndexMap<(u32, u32), Option<u32>>, name: FunName) -> Option<u32>
    ensures { result ≡ number_of_name numbers.now name }
{
    match numbers.get(&key_of(name)) {
        Some(number) => *number,
        None => None,
    }
}

// Gives a name a number.
fn set_number(
    numbers: &mut IndexMap<(u32, u32), Option<u32>>,
    name: FunName,
    number: u32,
) -> Result<(), Memory>
    ensures ok { OnOk result ((f : AnyName) → number_of_name numbers.new f
        ≡ (if is_name name f then Some number else number_of_name numbers.old f)) }
    ensures err { OnErr result (IsUnchanged numbers.old numbers.new) }
{
    numbers.insert(key_of(name), Some(number))?;
    Ok(())
}

// Gives a name back the number that it had.
fn restore(numbers: &mut IndexMap<(u32, u32), Option<u32>>, name: FunName, number: Option<u32>)
    requires { IsSome (number_of_name numbers.old name) }
    ensures { (f : AnyName) → number_of_name numbers.new f
        ≡ (if is_name name f then number else number_of_name numbers.old f) }
{
    if let Some(entry) = numbers.get_mut(&key_of(name)) {
        *entry = number;
    }
}

// The functions of a letrec with their numbers, in the order of the text.
fn number_functions(
    alloc: Global,
    counts: &NestedCounts,
    first: u32,
    functions: &[Function],
) -> Result<Vec<(FunName, u32)>, Memory>
    ensures { IfOk result (λ names. names.items
        ≡ numbered counts.now first (definitions_of (map function_syntax functions.now))) }
{
    let mut names = Vec::new(alloc);
    let mut next = first;
    for function in functions {
        names.push((function.name, next))?;
        let behind = next.checked_add(counts.within(next)).ok_or(Memory)?;
        next = behind.checked_add(1).ok_or(Memory)?;
    }
    Ok(names)
}

impl LetrecNames {
    /// None.
    pub fn new(alloc: Global) -> LetrecNames
        ensures { result ≡ [] }
    {
        LetrecNames {
            alloc,
            entries: Vec::new(alloc),
            numbers: IndexMap::new(alloc),
        }
    }

    /// How many functions are around.
    #[tactic(auto, using(crate::proofs::Naming::height_is))]
    pub fn height(&self) -> usize
        ensures { result ≡ length self.now }
    {
        self.entries.len()
    }

    /// The number of the innermost function of this name and number of parameters; `None` where no
    /// such function is around.
    pub fn number_of(&self, name: FunName) -> Option<u32>
        ensures { result ≡ number_in self.now name }
    {
        number_at(&self.numbers, name)
    }

    /// Enters a function, as the innermost one.
    pub fn enter(&mut self, name: FunName, number: u32) -> Result<(), Memory>
        ensures { OnOk result (self.new ≡ (name, number) ∷ self.old) }
    {
        let around = number_at(&self.numbers, name);
        // A name that has its number can be pushed.
        self.entries.reserve(1)?;
        set_number(&mut self.numbers, name, number)?;
        self.entries.push(Entry {
            name,
            number,
            around,
        })?;
        Ok(())
    }

    // Enters functions, the last one first.
    fn enter_all(&mut self, mut names: Vec<(FunName, u32)>) -> Result<(), Memory>
        ensures { OnOk result (self.new ≡ names.items ++ self.old) }
    {
        while let Some((name, number)) = names.pop() {
            self.enter(name, number)?;
        }
        Ok(())
    }

    /// Enters the functions of a letrec, of which the first has this number and the others those
    /// that follow by the counts; the first one is innermost. `Memory` for want of memory, or where
    /// a number passes its type.
    pub fn enter_functions(
        &mut self,
        counts: &NestedCounts,
        first: u32,
        functions: &[Function],
    ) -> Result<(), Memory>
        ensures { OnOk result (self.new
            ≡ numbered counts.now first (definitions_of (map function_syntax functions.now))
            ++ self.old) }
    {
        let names = number_functions(self.alloc, counts, first, functions)?;
        self.enter_all(names)
    }

    // Leaves the innermost function.
    fn leave(&mut self)
        requires { 0 < length self.old }
        ensures { self.new ≡ drop 1 self.old }
    {
        if let Some(entry) = self.entries.pop() {
            restore(&mut self.numbers, entry.name, entry.around);
        }
    }

    /// Leaves the innermost functions, until so many are left.
    pub fn back_to(&mut self, height: usize)
        ensures { self.new ≡ drop (length self.old - height) self.old }
    {
        while self.height() > height {
            self.leave();
        }
    }
}
